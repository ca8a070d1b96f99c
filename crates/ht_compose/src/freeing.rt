ghost use Rattle.std.specs.Prelude.{◌≡◌, ◌≤◌, IfOk, map, OnErr, OnOk};
ghost use Rattle.ht_base.specs.Moment.{last_moment};
ghost use Rattle.ht_compose.specs.Downward.{freeing};
ghost use Rattle.ht_compose.specs.Freeing as spec;
ghost use Rattle.ht_compose.specs.Freeing.{IsFreed};
ghost use Rattle.ht_compose.specs.Items.Item.{Check};
ghost use Rattle.ht_compose.specs.Reaching.{IsTask};
ghost use Rattle.ht_compose.specs.Running.{Runs};
ghost use Rattle.ht_tree.specs.Plans.{GoesByRows, IsSoundPlan, planned};
ghost use Rattle.ht_tree.specs.Soundness.{IsSound};

use crate::item::Item;
use crate::reaching::Reach;
use crate::running::run;
use crate::spreading::reach_one;
use crate::trees::tree_of;
use ht_base::{Memory, Moment, TaskId};
use ht_tree::{Plan, Tables};
use std::alloc::Global;

/// Plans that every suspended task below this one returns to its state before, with no end of its
/// suspension, and all that follows where each of them, and then the task, is checked whether it
/// finishes (WS-HumanTask 1.1, 4.7, 4.8 and 4.10). After want of memory the plan can still go back to
/// its mark.
pub fn free(
    alloc: Global,
    tables: &Tables,
    plan: &mut Plan,
    task: TaskId,
    at: Moment,
) -> Result<(), Memory>
    requires plan { IsSoundPlan tables.now.tables plan.old }
    requires there { IsTask (planned tables.now.tables plan.old) task.0 }
    requires at { at.0 ≤ last_moment }
    ensures frees { OnOk result (IsFreed tables.now.tables plan.old plan.new at task.0) }
    ensures marked { OnErr result (plan.new.marked ≡ plan.old.marked) }
{
    let mut tasks = free_below(alloc, tables, plan, task)?;
    tasks.push(task)?;
    check_all(alloc, tables, plan, &tasks, at)
}

// Plans that every suspended task below this one returns to its state before, with no end of its
// suspension: these tasks, from the greatest number to the least.
fn free_below(
    alloc: Global,
    tables: &Tables,
    plan: &mut Plan,
    task: TaskId,
) -> Result<Vec<TaskId>, Memory>
    requires plan { IsSoundPlan tables.now.tables plan.old }
    requires there { IsTask (planned tables.now.tables plan.old) task.0 }
    ensures goes { OnOk result
        (GoesByRows tables.now.tables plan.old plan.new (freeing task.0)) }
    ensures sound { OnOk result (IsSound (planned tables.now.tables plan.new)) }
    ensures freed { IfOk result (λ tasks.
        map (λ id. Check id.0) tasks.items
        ≡ map (λ row. Check row.task.0)
        (spec.freed_tasks task.0 (planned tables.now.tables plan.old).rows)) }
    ensures marked { OnErr result (plan.new.marked ≡ plan.old.marked) }
{
    let mut freed = Vec::new(alloc);
    let mut left = tree_of(alloc, tables, plan, task)?;
    while let Some(id) = left.pop() {
        if reach_one(alloc, tables, plan, task, Reach::Free, id)? {
            freed.push(id)?;
        }
    }
    Ok(freed)
}

// Plans that these tasks are checked, one after another.
fn check_all(
    alloc: Global,
    tables: &Tables,
    plan: &mut Plan,
    tasks: &[TaskId],
    at: Moment,
) -> Result<(), Memory>
    requires plan { IsSoundPlan tables.now.tables plan.old }
    requires at { at.0 ≤ last_moment }
    ensures runs { OnOk result
        (Runs tables.now.tables plan.old plan.new at (map (λ id. Check id.0) tasks.now)) }
    ensures marked { OnErr result (plan.new.marked ≡ plan.old.marked) }
{
    for task in tasks {
        run(alloc, tables, plan, at, Item::Check(*task))?;
    }
    Ok(())
}
