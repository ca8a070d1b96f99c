ghost use Rattle.std.specs.Prelude.{◌≡◌, ◌≤◌, max, IfOk, OnOk};
ghost use Rattle.ht_base.specs.declared.event.Event.TheVariants.{Turn};
ghost use Rattle.ht_base.specs.Events.{IsValid};
ghost use Rattle.ht_base.specs.Moment.{last_moment};
ghost use Rattle.ht_machine.specs.Deciding.{last_after};
ghost use Rattle.ht_machine.specs.Once.{ActsOnce};
ghost use Rattle.ht_machine.specs.Planning as spec;
ghost use Rattle.ht_machine.specs.Planning.{IsDecided, Plans, PlansBehindTurn, record_by, record_in};
ghost use Rattle.ht_tree.specs.Plans.{IsPrepared, committed, no_plan};
ghost use Rattle.ht_tree.specs.Soundness.{IsSound};

use crate::answering::{Response, answer_of};
use crate::asking::{CommandAt, ask};
use crate::leaving::Left;
use crate::reading::read;
use crate::turning::turn;
use ht_base::{Answer, Event, Memory, Moment, Record, Reply};
use ht_tree::{Plan, Tables};
use std::alloc::Global;

/// What is decided of an event: a plan to commit, the record that is to be kept, and the reply.
#[derive(Drop)]
pub struct Decision {
    pub plan: Plan,
    /// None where nothing changes.
    pub left: Option<Record>,
    pub reply: Reply,
}

/// Decides an event. The tables are as before, and are prepared for the plan.
pub fn decide(alloc: Global, tables: &mut Tables, event: &Event) -> Result<Decision, Memory>
    requires { IsValid event.now }
    ensures tables { tables.new.tables ≡ tables.old.tables }
    ensures decides { IfOk result (IsDecided tables.new event.now) }
    ensures once { IfOk result (λ d.
        ActsOnce tables.new.tables event.now d.left d.reply.answer
        (committed tables.new.tables d.plan (last_after tables.new.tables d.left))) }
{
    let mut plan = Plan::begin(alloc)?;
    let (left, reply) = prepare_event(alloc, tables, &mut plan, event)?;
    let left = left.record(alloc, event)?;
    Ok(Decision { plan, left, reply })
}

// Plans an event, and prepares the tables for the plan.
fn prepare_event(
    alloc: Global,
    tables: &mut Tables,
    plan: &mut Plan,
    event: &Event,
) -> Result<(Left, Reply), Memory>
    requires valid { IsValid event.now }
    requires plan { plan.old ≡ no_plan }
    ensures tables { tables.new.tables ≡ tables.old.tables }
    ensures plans { IfOk result
        (λ r. Plans tables.new.tables plan.new event.now (record_in event.now r.0) r.1) }
    ensures prepared { OnOk result (IsPrepared tables.new plan.new) }
{
    let decided = plan_event(alloc, tables, plan, event)?;
    tables.prepare(plan)?;
    Ok(decided)
}

// Plans an event, and tells what it leaves and the reply.
fn plan_event(
    alloc: Global,
    tables: &Tables,
    plan: &mut Plan,
    event: &Event,
) -> Result<(Left, Reply), Memory>
    requires valid { IsValid event.now }
    requires plan { plan.old ≡ no_plan }
    ensures { IfOk result
        (λ r. Plans tables.now.tables plan.new event.now (record_in event.now r.0) r.1) }
{
    let last = tables.last();
    match event {
        Event::Turn { at } => plan_turn(alloc, tables, plan, *at),
        Event::Ask {
            at,
            caller,
            retry,
            task,
            command,
        } => {
            let asked = CommandAt {
                at: effective(last, *at),
                caller: *caller,
                retry: *retry,
                task: *task,
                command,
            };
            turn_then_ask(alloc, tables, plan, &asked)
        }
        Event::Read { caller, query } => {
            let reply = read(alloc, tables, *caller, query)?;
            Ok((Left::Nothing, reply))
        }
    }
}

// Plans what is due by a moment.
pub(crate) fn plan_turn(
    alloc: Global,
    tables: &Tables,
    plan: &mut Plan,
    at: Moment,
) -> Result<(Left, Reply), Memory>
    requires at { at.0 ≤ last_moment }
    requires plan { plan.old ≡ no_plan }
    ensures { IfOk result (λ r.
        Plans tables.now.tables plan.new (Turn at) (record_in (Turn at) r.0) r.1) }
{
    let by = effective(tables.last(), at);
    let taken = turn(alloc, tables, plan, by)?;
    let answer = Answer::Turned;
    Ok((Left::by_turn(by, taken), Reply { taken, answer }))
}

// The moment at which an event acts: its own, and never before the last record.
pub(crate) fn effective(last: Moment, at: Moment) -> Moment
    ensures { result.0 ≡ max at.0 last.0 }
{
    last.max(at)
}

// Plans what is due at the moment of a command, and then the command.
// Part of its two callers, of which one makes no use of the reply: then it isn't made.
#[inline(always)]
pub(crate) fn turn_then_ask(
    alloc: Global,
    tables: &Tables,
    plan: &mut Plan,
    asked: &CommandAt<'_>,
) -> Result<(Left, Reply), Memory>
    requires sound { IsSound tables.now.tables }
    requires later { tables.now.tables.last ≤ asked.now.at.0 }
    requires plan { plan.old ≡ no_plan }
    requires asked { spec.IsAsked asked.now }
    ensures { IfOk result (λ r.
        PlansBehindTurn tables.now.tables plan.new asked.now
        (record_by (spec.record_as asked.now) r.0) r.1) }
{
    let taken = turn(alloc, tables, plan, asked.at)?;
    plan.mark();
    let (left, answer) = match ask(alloc, tables, plan, asked)? {
        Response::Accepted(kept) => (Left::Commanded(asked.at), answer_of(&kept)),
        Response::Answered(kept) => (Left::by_turn(asked.at, taken), answer_of(&kept)),
        Response::Refused(refusal) => (Left::by_turn(asked.at, taken), Answer::Refused(refusal)),
    };
    Ok((left, Reply { taken, answer }))
}
