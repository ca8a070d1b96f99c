ghost use Rattle.std.specs.Prelude.{◌≡◌, ◌<◌, Some, IfOk, length};
ghost use Rattle.ht_people.specs.Directory.{find};
ghost use Rattle.ht_machine.specs.Deciding.{NamesOwner, Shows};
ghost use Rattle.ht_machine.specs.Sending as spec;
ghost use Rattle.ht_tree.specs.Plans.{IsPlanOf, planned};
ghost use Rattle.ht_tree.specs.Tables.{directory, task_row};
ghost use Rattle.ht_tree.specs.declared.row.Row.{Row};

use ht_base::{Answer, Refusal, TaskId};
use ht_lists::name_or_none;
use ht_tree::{Kept, Plan, Tables};

/// How a command is answered: it is accepted with this reply, or was before, or it is refused.
#[derive(Clone, Copy)]
pub(crate) enum Response {
    Accepted(Kept),
    Answered(Kept),
    Refused(Refusal),
}

/// What is answered of a task as it would be after the plan: its state and its owner.
// Part of its caller, so that no owner is copied whom nobody reads.
#[inline(always)]
pub(crate) fn done(tables: &Tables, plan: &Plan, task: TaskId) -> Kept
    requires plan { IsPlanOf tables.now.tables plan.now }
    requires there { (row : Row)
        × (task_row (planned tables.now.tables plan.now) task.0 ≡ Some row) }
    ensures shows { Shows (planned tables.now.tables plan.now) task.0 result }
    ensures known { NamesOwner tables.now.tables.people result }
{
    let Some(row) = plan.row(tables, task) else {
        unreachable!()
    };
    Kept::Done {
        task: row.task,
        state: row.state,
        owner: name_or_none(tables.people(), row.owner),
    }
}

/// The answer of a reply that is kept.
pub(crate) fn answer_of(kept: &Kept) -> Answer
    ensures { result ≡ spec.answer_of kept.now }
{
    match *kept {
        Kept::Done { task, state, owner } => Answer::Done { task, state, owner },
    }
}
