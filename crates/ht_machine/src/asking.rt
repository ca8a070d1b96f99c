ghost use Rattle.std.specs.Prelude.{◌≤◌, ◌<◌, IfOk, length};
ghost use Rattle.ht_machine.specs.Planning as spec;
ghost use Rattle.ht_machine.specs.Planning.{IsReady, PlansAsk, PlansNew, answer_given, record_left};

use crate::answering::{Response, done};
use crate::commanding::command;
use crate::sending::{Sending, keep, sending_of};
use ht_base::{Command, Memory, Moment, Name, Person, Retry, TaskId};
use ht_owner::ActRefusal;
use ht_tree::{Plan, Tables};
use std::alloc::Global;

/// A command of a caller, and the moment at which it acts.
#[derive(Clone, Copy)]
pub(crate) struct CommandAt<'a> {
    pub(crate) at: Moment,
    pub(crate) caller: Name,
    pub(crate) retry: Option<Retry>,
    pub(crate) task: TaskId,
    pub(crate) command: &'a Command,
}

/// Plans a command, unless its caller is no person or its number tells that it isn't new.
// Part of its caller, so that no response is copied.
#[inline(always)]
pub(crate) fn ask(
    alloc: Global,
    tables: &Tables,
    plan: &mut Plan,
    asked: &CommandAt<'_>,
) -> Result<Response, Memory>
    requires ready { IsReady tables.now.tables plan.old }
    requires later { tables.now.tables.last ≤ asked.now.at.0 }
    requires asked { spec.IsAsked asked.now }
    ensures { IfOk result (λ r.
        PlansAsk tables.now.tables plan.old plan.new asked.now.at.0 asked.now.caller asked.now.retry
        asked.now.task asked.now.command.now (record_left asked.now r) (answer_given r)) }
{
    let op = asked.command.op();
    match sending_of(tables, asked.caller, asked.retry, op, asked.task) {
        Sending::New(person) => ask_anew(alloc, tables, plan, person, asked),
        Sending::Answered(kept) => Ok(Response::Answered(kept)),
        Sending::Refused(refusal) => Ok(Response::Refused(refusal)),
    }
}

// Plans a new command of a person.
#[inline(always)]
fn ask_anew(
    alloc: Global,
    tables: &Tables,
    plan: &mut Plan,
    person: Person,
    asked: &CommandAt<'_>,
) -> Result<Response, Memory>
    requires ready { IsReady tables.now.tables plan.old }
    requires later { tables.now.tables.last ≤ asked.now.at.0 }
    requires person { person < length tables.now.tables.people.persons }
    requires asked { spec.IsAsked asked.now }
    ensures { IfOk result (λ r.
        PlansNew tables.now.tables plan.old plan.new asked.now.at.0 person asked.now.retry
        asked.now.task asked.now.command.now (spec.record_of asked.now)
        (record_left asked.now r) (answer_given r)) }
{
    match command(
        alloc,
        tables,
        plan,
        person,
        asked.at,
        asked.task,
        asked.command,
    ) {
        Ok(about) => {
            let kept = done(tables, plan, about);
            keep(
                plan,
                person,
                asked.retry,
                asked.command.op(),
                asked.task,
                &kept,
            );
            Ok(Response::Accepted(kept))
        }
        Err(ActRefusal::Refused(refusal)) => {
            plan.back();
            Ok(Response::Refused(refusal))
        }
        Err(ActRefusal::Memory) => Err(Memory),
    }
}
