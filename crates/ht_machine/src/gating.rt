ghost use Rattle.std.specs.Prelude.{◌≡◌, ◌<◌, length};
ghost use Rattle.ht_machine.specs.Gate.{Answers};
ghost use Rattle.ht_tree.specs.Plans.{IsPlanOf, planned};

use ht_base::{Op, Person, Refusal, TaskId};
use ht_rules::{Verdict, may};
use ht_tree::{Plan, Tables};

/// Why a person may not do an operation with a task as it would be after the plan: first for want of
/// the task, then of a role for it, and then since the task's state doesn't allow it.
pub(crate) fn refusal_at_gate(
    tables: &Tables,
    plan: &Plan,
    person: Person,
    task: TaskId,
    op: Op,
) -> Option<Refusal>
    requires plan { IsPlanOf tables.now.tables plan.now }
    requires person { person < length tables.now.tables.people.persons }
    ensures { Answers (planned tables.now.tables plan.now) op person task.0 result }
{
    let Some(row) = plan.row(tables, task) else {
        return Some(Refusal::Task(task));
    };
    let state = row.state;
    match may(op, state, &plan.roles_of(tables, task, person)) {
        Verdict::Yes => None,
        Verdict::NeedsRole(needs) => Some(Refusal::Role { needs }),
        Verdict::WrongState(allowed) => Some(Refusal::State { allowed, state }),
    }
}
