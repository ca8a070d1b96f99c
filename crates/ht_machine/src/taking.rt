ghost use Rattle.std.specs.Prelude.{◌≡◌, ◌≤◌, OnErr, OnOk, true};
ghost use Rattle.ht_base.specs.Moment.{last_moment};
ghost use Rattle.ht_due.specs.Dues.{has};
ghost use Rattle.ht_machine.specs.Courses.{IsTaken};
ghost use Rattle.ht_tree.specs.Plans.{IsSoundPlan, planned};
ghost use Rattle.ht_tree.specs.RowDues.{all_dues};

use ht_base::Memory;
use ht_compose::{activate, resume};
use ht_due::Due;
use ht_escalate::deadline;
use ht_tree::{Plan, Tables};
use std::alloc::Global;

/// Plans an action that is due, as at the moment at which it is: a deferred activation, the end of a
/// suspension, or a deadline (WS-HumanTask 1.1, 4.9 and 4.10).
pub(crate) fn take(alloc: Global, tables: &Tables, plan: &mut Plan, due: Due) -> Result<(), Memory>
    requires plan { IsSoundPlan tables.now.tables plan.old }
    requires due { has due (all_dues (planned tables.now.tables plan.old)) ≡ true }
    requires at { due.at.0 ≤ last_moment }
    ensures taken { OnOk result (IsTaken tables.now.tables plan.old plan.new due) }
    ensures marked { OnErr result (plan.new.marked ≡ plan.old.marked) }
{
    if due.kind == 0 {
        return activate(alloc, tables, plan, due.task, due.at);
    }
    if due.kind == 1 {
        return resume(alloc, tables, plan, due.task, due.at);
    }
    deadline(alloc, tables, plan, due.task, due.place, due.at)
}
