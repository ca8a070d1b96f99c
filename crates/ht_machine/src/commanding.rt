ghost use Rattle.std.specs.Prelude.{◌≡◌, ◌<◌, ◌≤◌, length};
ghost use Rattle.ht_base.specs.Events.{IsCommand, op_of};
ghost use Rattle.ht_base.specs.Moment.{last_moment};
ghost use Rattle.ht_machine.specs.Commands as spec;
ghost use Rattle.ht_machine.specs.Commands.{ActsOn, Comes, DoesOn, HasEffect};
ghost use Rattle.ht_machine.specs.Planning.{Tries};
ghost use Rattle.ht_owner.specs.Acting.{IsAllowed};
ghost use Rattle.ht_tree.specs.Plans.{IsSoundPlan, planned};

use crate::creating::create;
use crate::following::follow;
use crate::gating::refusal_at_gate;
use crate::making::make_sub_task;
use ht_base::{Command, Moment, Person, TaskId};
use ht_compose::gather;
use ht_owner::{ActRefusal, act};
use ht_tree::{Plan, Tables};
use std::alloc::Global;

/// Plans a person's command, and gives the task that it is about.
#[inline(always)]
pub(crate) fn command(
    alloc: Global,
    tables: &Tables,
    plan: &mut Plan,
    caller: Person,
    at: Moment,
    task: TaskId,
    command: &Command,
) -> Result<TaskId, ActRefusal>
    requires plan { IsSoundPlan tables.now.tables plan.old }
    requires caller { caller < length tables.now.tables.people.persons }
    requires at { at.0 ≤ last_moment }
    requires command { IsCommand command.now }
    ensures { Tries tables.now.tables plan.old plan.new
        (Comes (planned tables.now.tables plan.old) caller at.0 task.0 command.now) result }
{
    match command {
        Command::Create {
            model,
            input,
            activate_at,
        } => {
            let waits = waits_until(at, *activate_at);
            create(alloc, tables, plan, caller, at, *model, input, waits)
        }
        _ => act_on(alloc, tables, plan, caller, at, task, command),
    }
}

// Plans a command on a task, unless the gate is shut.
// Apart from the create, for which its locals would be cleared too.
#[inline(never)]
fn act_on(
    alloc: Global,
    tables: &Tables,
    plan: &mut Plan,
    caller: Person,
    at: Moment,
    task: TaskId,
    command: &Command,
) -> Result<TaskId, ActRefusal>
    requires plan { IsSoundPlan tables.now.tables plan.old }
    requires caller { caller < length tables.now.tables.people.persons }
    requires at { at.0 ≤ last_moment }
    requires command { IsCommand command.now }
    ensures { Tries tables.now.tables plan.old plan.new
        (ActsOn (planned tables.now.tables plan.old) caller at.0 task.0 command.now) result }
{
    if let Some(refusal) = refusal_at_gate(tables, plan, caller, task, command.op()) {
        return Err(ActRefusal::Refused(refusal));
    }
    do_on(alloc, tables, plan, caller, at, task, command)
}

// Plans what a caller may do with a task.
fn do_on(
    alloc: Global,
    tables: &Tables,
    plan: &mut Plan,
    caller: Person,
    at: Moment,
    task: TaskId,
    command: &Command,
) -> Result<TaskId, ActRefusal>
    requires plan { IsSoundPlan tables.now.tables plan.old }
    requires caller { caller < length tables.now.tables.people.persons }
    requires allowed { IsAllowed (planned tables.now.tables plan.old) (op_of command.now) caller
        task.0 }
    requires at { at.0 ≤ last_moment }
    requires command { IsCommand command.now }
    ensures { Tries tables.now.tables plan.old plan.new
        (DoesOn (planned tables.now.tables plan.old) caller at.0 task.0 command.now) result }
{
    match command {
        Command::InstantiateSubTask { sub } => {
            make_sub_task(alloc, tables, plan, caller, at, task, *sub)
        }
        Command::Complete { .. } => {
            gather(alloc, tables, plan, task)?;
            act_then_follow(alloc, tables, plan, caller, at, task, command)
        }
        _ => act_then_follow(alloc, tables, plan, caller, at, task, command),
    }
}

// Plans what a command makes of a task, and what follows.
fn act_then_follow(
    alloc: Global,
    tables: &Tables,
    plan: &mut Plan,
    caller: Person,
    at: Moment,
    task: TaskId,
    command: &Command,
) -> Result<TaskId, ActRefusal>
    requires plan { IsSoundPlan tables.now.tables plan.old }
    requires caller { caller < length tables.now.tables.people.persons }
    requires allowed { IsAllowed (planned tables.now.tables plan.old) (op_of command.now) caller
        task.0 }
    requires at { at.0 ≤ last_moment }
    requires command { IsCommand command.now }
    ensures { Tries tables.now.tables plan.old plan.new
        (HasEffect (planned tables.now.tables plan.old) caller at.0 task.0 command.now) result }
{
    match act(alloc, tables, plan, task, caller, command, at) {
        Ok(next) => {
            follow(alloc, tables, plan, at, task, next)?;
            Ok(task)
        }
        Err(refusal) => Err(refusal),
    }
}

// When a task that is created at a moment is activated, if that is later.
fn waits_until(at: Moment, activate_at: Option<Moment>) -> Option<Moment>
    ensures { result ≡ spec.waits_until at.0 activate_at }
{
    match activate_at {
        Some(moment) if at < moment => Some(moment),
        _ => None,
    }
}
