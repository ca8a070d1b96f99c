ghost use Rattle.std.specs.Prelude.{◌≡◌, IfOk, OnErr, OnOk, false};
ghost use Rattle.std.specs.Option.{option_map_or};
ghost use Rattle.ht_compose.specs.Reaching.{ReachIsFinal, IsTask, Reaches, ReachesAll, changes};
ghost use Rattle.ht_tree.specs.Plans.{IsPlanOf, IsSoundPlan, planned};
ghost use Rattle.ht_tree.specs.Soundness.{IsSound};
ghost use Rattle.ht_tree.specs.Tables.{task_row};

use crate::changing::{change_of, changed, touches};
use crate::reaching::Reach;
use crate::trees::tree_of;
use ht_base::{Memory, TaskId};
use ht_tree::{Plan, Tables};
use std::alloc::Global;

/// Plans what reaches the tasks below this one, from the greatest number to the least.
pub(crate) fn spread(
    alloc: Global,
    tables: &Tables,
    plan: &mut Plan,
    task: TaskId,
    reach: Reach,
) -> Result<(), Memory>
    requires plan { IsSoundPlan tables.now.tables plan.old }
    requires there { IsTask (planned tables.now.tables plan.old) task.0 }
    requires ends { ReachIsFinal reach }
    ensures reaches { OnOk result (ReachesAll tables.now.tables plan.old plan.new task.0 reach) }
    ensures sound { OnOk result (IsSound (planned tables.now.tables plan.new)) }
    ensures marked { OnErr result (plan.new.marked ≡ plan.old.marked) }
{
    let mut left = tree_of(alloc, tables, plan, task)?;
    while let Some(id) = left.pop() {
        reach_one(alloc, tables, plan, task, reach, id)?;
    }
    Ok(())
}

// Plans what comes of one row, and tells whether it changes.
// Part of each walk, for which a call would cost a fifth more.
#[inline(always)]
pub(crate) fn reach_one(
    alloc: Global,
    tables: &Tables,
    plan: &mut Plan,
    task: TaskId,
    reach: Reach,
    id: TaskId,
) -> Result<bool, Memory>
    requires plan { IsPlanOf tables.now.tables plan.old }
    requires there { IsTask (planned tables.now.tables plan.old) id.0 }
    ensures reaches { OnOk result (Reaches tables.now.tables plan.old plan.new task.0 reach id.0) }
    ensures changes { IfOk result (λ changed.
        changed ≡ option_map_or (changes reach (planned tables.now.tables plan.old).rows task.0)
        (task_row (planned tables.now.tables plan.old) id.0) false) }
    ensures marked { OnErr result (plan.new.marked ≡ plan.old.marked) }
{
    let Some(row) = plan.row(tables, id) else {
        unreachable!()
    };
    let change = change_of(tables, plan, task, reach, row);
    if !touches(change, row.state) {
        return Ok(false);
    }
    let row = plan.take(alloc, tables, id)?;
    plan.put(tables, changed(row, change))?;
    Ok(true)
}
