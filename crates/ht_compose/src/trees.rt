ghost use Rattle.std.specs.Prelude.{◌≡◌, IfOk, OnOk};
ghost use Rattle.ht_compose.specs.Reaching.{IsTask};
ghost use Rattle.ht_compose.specs.Trees.{AddsTree, tree_ids};
ghost use Rattle.ht_index.specs.Indexes.{Ascends};
ghost use Rattle.ht_tree.specs.Plans.{IsSoundPlan, planned};

use ht_base::{Memory, TaskId};
use ht_index::put_task;
use ht_tree::{Plan, Tables, sub_tasks};
use std::alloc::Global;

/// The task and all tasks below it, ascending by number (WS-HumanTask 1.1, 4.7). No other task is looked
/// at, but for the plan's new ones.
pub(crate) fn tree_of(
    alloc: Global,
    tables: &Tables,
    plan: &Plan,
    task: TaskId,
) -> Result<Vec<TaskId>, Memory>
    requires plan { IsSoundPlan tables.now.tables plan.now }
    requires there { IsTask (planned tables.now.tables plan.now) task.0 }
    ensures { IfOk result (λ tasks.
        tasks.items ≡ tree_ids task.0 (planned tables.now.tables plan.now).rows) }
{
    let mut tasks = Vec::new(alloc);
    add_tree(alloc, tables, plan, task, &mut tasks)?;
    Ok(tasks)
}

// A tree of sub tasks is no deeper than that of models (WS-HumanTask 1.1, 4.7).
fn add_tree(
    alloc: Global,
    tables: &Tables,
    plan: &Plan,
    task: TaskId,
    tasks: &mut Vec<TaskId>,
) -> Result<(), Memory>
    requires plan { IsSoundPlan tables.now.tables plan.now }
    requires there { IsTask (planned tables.now.tables plan.now) task.0 }
    requires ascends { Ascends tasks.old.items }
    ensures { OnOk result (AddsTree (planned tables.now.tables plan.now).rows task.0
        tasks.old.items tasks.new.items) }
{
    put_task(tasks, task)?;
    let subs = sub_tasks(alloc, tables, plan, task)?;
    for sub in &subs {
        add_tree(alloc, tables, plan, *sub, tasks)?;
    }
    Ok(())
}
