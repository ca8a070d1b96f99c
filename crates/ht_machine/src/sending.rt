ghost use Rattle.std.specs.Prelude.{◌≡◌, ◌<◌, ℕ, length};
ghost use Rattle.ht_machine.specs.Sending as spec;
ghost use Rattle.ht_machine.specs.Sending.{ByLast, IsSent, IsWithin};

use ht_base::{Name, Op, Person, Refusal, Retry, TaskId};
use ht_tree::{Kept, Plan, Slot, Tables};
use std::cmp::Ordering;

/// What is known of a command by its caller and its number, before anything else is looked at.
#[derive(Clone, Copy)]
pub(crate) enum Sending {
    /// It is a person's, and wasn't answered before.
    New(Person),
    /// It was answered before.
    Answered(Kept),
    Refused(Refusal),
}

/// What is known of a command of this caller, with this number, if it has one.
#[inline(always)]
pub(crate) fn sending_of(
    tables: &Tables,
    caller: Name,
    retry: Option<Retry>,
    op: Op,
    task: TaskId,
) -> Sending
    ensures sent { IsSent tables.now.tables caller retry op task result }
    ensures within { IsWithin (length tables.now.tables.people.persons) result }
{
    let Some(person) = tables.people().find(caller) else {
        return Sending::Refused(Refusal::Person);
    };
    let Some(retry) = retry else {
        return Sending::New(person);
    };
    match tables.slot(person, retry.device) {
        Some(last) => by_last(&last, person, retry.number, op, task),
        None => Sending::New(person),
    }
}

// By the last command of the same device.
fn by_last(last: &Slot, person: Person, number: u32, op: Op, task: TaskId) -> Sending
    ensures by_last { ByLast person number op task last.now result }
    ensures within { (persons : ℕ) → person < persons → IsWithin persons result }
{
    let is_same = last.op == op && last.task == task;
    match number.cmp(&last.number) {
        Ordering::Less => Sending::Refused(Refusal::NumberStale { last: last.number }),
        Ordering::Equal if is_same => Sending::Answered(last.kept),
        Ordering::Equal => Sending::Refused(Refusal::NumberReused { last: last.number }),
        Ordering::Greater => Sending::New(person),
    }
}

/// Keeps the reply to a command that has a number.
pub(crate) fn keep(
    plan: &mut Plan,
    person: Person,
    retry: Option<Retry>,
    op: Op,
    task: TaskId,
    kept: &Kept,
)
    ensures { plan.new ≡ spec.keeping_reply plan.old person retry op task kept.now }
{
    if let Some(Retry { device, number }) = retry {
        plan.keep(Slot {
            person,
            device,
            number,
            op,
            task,
            kept: *kept,
        });
    }
}
