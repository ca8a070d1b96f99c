ghost use Rattle.std.specs.Prelude.{◌≡◌, OnErr, OnOk};
ghost use Rattle.ht_compose.specs.Gathering.{IsGathered};
ghost use Rattle.ht_compose.specs.Reaching.{IsTask};
ghost use Rattle.ht_tree.specs.Plans.{IsSoundPlan, planned};

use crate::finishing::finish;
use ht_base::{Memory, TaskId};
use ht_entries::Trigger;
use ht_tree::{Plan, Tables, sub_tasks};
use std::alloc::Global;

/// Plans what a task has of its sub tasks that its owner is about to complete: the results of the
/// chosen finish, where its completion is manual (WS-HumanTask 1.1, 4.8). After want of memory the plan
/// can still go back to its mark.
pub fn gather(alloc: Global, tables: &Tables, plan: &mut Plan, task: TaskId) -> Result<(), Memory>
    requires plan { IsSoundPlan tables.now.tables plan.old }
    requires there { IsTask (planned tables.now.tables plan.old) task.0 }
    ensures gathers { OnOk result (IsGathered tables.now.tables plan.old plan.new task.0) }
    ensures marked { OnErr result (plan.new.marked ≡ plan.old.marked) }
{
    let Some(row) = plan.row(tables, task) else {
        unreachable!()
    };
    let model = tables.models().model(row.model);
    if model.finishes.is_empty() {
        return Ok(());
    }
    if model.completion == Trigger::Automatic {
        return Ok(());
    }
    let subs = sub_tasks(alloc, tables, plan, task)?;
    let found = finish(alloc, tables, plan, row, model, &subs)?;
    let Some(output) = found else {
        return Ok(());
    };
    let mut row = plan.take(alloc, tables, task)?;
    row.output = output;
    plan.put(tables, row)?;
    Ok(())
}
