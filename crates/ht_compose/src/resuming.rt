ghost use Rattle.std.specs.Prelude.{◌≡◌, ◌≤◌, Some, true, OnErr, OnOk};
ghost use Rattle.ht_base.specs.Moment.{last_moment};
ghost use Rattle.ht_compose.specs.Downward as downward;
ghost use Rattle.ht_compose.specs.Freeing.{IsResumed};
ghost use Rattle.ht_tree.specs.declared.row.Row.{Row};
ghost use Rattle.ht_tree.specs.Plans.{GoesByRow, IsSoundPlan, planned};
ghost use Rattle.ht_tree.specs.Soundness.{IsSound, is_suspended};
ghost use Rattle.ht_tree.specs.Tables.{task_row};

use crate::changing::changed;
use crate::freeing::free;
use crate::reaching::Change;
use ht_base::{Memory, Moment, TaskId};
use ht_tree::{Plan, Tables};
use std::alloc::Global;

/// Plans that the suspension of a task ends: it returns to its state before, and all follows that follows
/// where it is resumed (WS-HumanTask 1.1, 4.7, 4.8 and 4.10). After want of memory the plan can still go
/// back to its mark.
pub fn resume(
    alloc: Global,
    tables: &Tables,
    plan: &mut Plan,
    task: TaskId,
    at: Moment,
) -> Result<(), Memory>
    requires plan { IsSoundPlan tables.now.tables plan.old }
    requires suspended { (row : Row)
        × (task_row (planned tables.now.tables plan.old) task.0 ≡ Some row)
        × (is_suspended row.state ≡ true) }
    requires at { at.0 ≤ last_moment }
    ensures resumes { OnOk result (IsResumed tables.now.tables plan.old plan.new at task.0) }
    ensures marked { OnErr result (plan.new.marked ≡ plan.old.marked) }
{
    free_one(alloc, tables, plan, task)?;
    free(alloc, tables, plan, task, at)
}

// Plans that the task alone returns to its state before.
fn free_one(alloc: Global, tables: &Tables, plan: &mut Plan, task: TaskId) -> Result<(), Memory>
    requires plan { IsSoundPlan tables.now.tables plan.old }
    requires suspended { (row : Row)
        × (task_row (planned tables.now.tables plan.old) task.0 ≡ Some row)
        × (is_suspended row.state ≡ true) }
    ensures frees { (row : Row) → task_row (planned tables.now.tables plan.old) task.0 ≡ Some row
        → OnOk result (GoesByRow tables.now.tables plan.old plan.new (downward.freed row)) }
    ensures sound { OnOk result (IsSound (planned tables.now.tables plan.new)) }
    ensures marked { OnErr result (plan.new.marked ≡ plan.old.marked) }
{
    let row = plan.take(alloc, tables, task)?;
    plan.put(tables, changed(row, Change::Free))?;
    Ok(())
}
