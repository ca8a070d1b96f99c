ghost use Rattle.std.specs.Prelude.{◌≡◌, ◌≤◌, IfOk, length, map};
ghost use Rattle.ht_tree.specs.Families as spec;
ghost use Rattle.ht_tree.specs.ListedBy.{sub_ids};
ghost use Rattle.ht_tree.specs.Plans.{IsSoundPlan, planned};

use crate::{Plan, Row, Tables};
use ht_base::{Memory, TaskId};
use std::alloc::Global;

/// The numbers of the sub tasks as they would be after the plan, in ascending order (WS-HumanTask 1.1,
/// 4.7). Those of the tables are at hand. The plan's new tasks behind the task are looked at, until as many
/// are found as its model has sub entries: each costs at most a logarithm of the number of the plan's rows.
pub fn sub_tasks(
    alloc: Global,
    tables: &Tables,
    plan: &Plan,
    task: TaskId,
) -> Result<Vec<TaskId>, Memory>
    requires plan { IsSoundPlan tables.now.tables plan.now }
    ensures { IfOk result (λ ids.
        ids.items
        ≡ map (λ r. r.task) (spec.sub_tasks task.0 (planned tables.now.tables plan.now).rows)) }
{
    let most = most_subs(tables, plan, task);
    let mut found = known(alloc, tables, task)?;
    for before in tables.rows().max(task.0)..plan.rows(tables) {
        if found.len() == most {
            return Ok(found);
        }
        let Some(row) = plan.row(tables, TaskId(before + 1)) else {
            unreachable!()
        };
        if is_sub_of(row, task) {
            found.push(row.task)?;
        }
    }
    Ok(found)
}

// Those of the tables.
fn known(alloc: Global, tables: &Tables, task: TaskId) -> Result<Vec<TaskId>, Memory>
    ensures { IfOk result (λ ids. ids.items ≡ sub_ids task.0 tables.now.tables.rows) }
{
    Ok(tables.subs(task).to_vec(alloc)?)
}

// The number of sub entries of the task's model: of each there is one sub task at most.
fn most_subs(tables: &Tables, plan: &Plan, task: TaskId) -> usize
    requires plan { IsSoundPlan tables.now.tables plan.now }
    ensures { length (spec.sub_tasks task.0 (planned tables.now.tables plan.now).rows) ≤ result }
{
    match plan.row(tables, task) {
        Some(row) => tables.models().model(row.model).subs.len(),
        None => 0,
    }
}

fn is_sub_of(row: &Row, task: TaskId) -> bool
    ensures { result ≡ spec.is_sub_of task.0 row.now }
{
    match row.parent {
        Some((parent, _)) => parent == task,
        None => false,
    }
}
