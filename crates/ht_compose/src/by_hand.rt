ghost use Rattle.std.specs.Prelude.{◌≡◌, ◌≤◌, IfOk, length};
ghost use Rattle.ht_base.specs.declared.limits.TheConstants.{MOST_SUBS};
ghost use Rattle.ht_compose.specs.ByHand as spec;
ghost use Rattle.ht_compose.specs.ByHand.{IsEntryOf, named_from};
ghost use Rattle.ht_compose.specs.Finding.{rows_of};
ghost use Rattle.ht_compose.specs.Reaching.{IsTask};
ghost use Rattle.ht_models.specs.Shown.{model_of};
ghost use Rattle.ht_tree.specs.Plans.{IsPlanOf, IsSoundPlan, planned};

use crate::finishing::all_ended;
use crate::making::has_of_entry;
use ht_base::{Memory, Name, TaskId};
use ht_entries::{Composition, Trigger};
use ht_models::Model;
use ht_tree::{Plan, Tables, sub_tasks};
use std::alloc::Global;

/// The place of the entry with this name, counted from 0, whose sub task may be made by hand as the
/// task would be after the plan (WS-HumanTask 1.1, 4.7). None where there is no such entry, or its sub
/// task may not be made now.
pub fn entry_to_make(
    alloc: Global,
    tables: &Tables,
    plan: &Plan,
    task: TaskId,
    name: Name,
) -> Result<Option<u32>, Memory>
    requires plan { IsSoundPlan tables.now.tables plan.now }
    requires there { IsTask (planned tables.now.tables plan.now) task.0 }
    ensures { IfOk result (IsEntryOf (planned tables.now.tables plan.now) task.0 name) }
{
    let Some(row) = plan.row(tables, task) else {
        unreachable!()
    };
    let model = tables.models().model(row.model);
    let Some(entry) = place_of(model, name) else {
        return Ok(None);
    };
    let subs = sub_tasks(alloc, tables, plan, task)?;
    if may_be_made(tables, plan, &subs, task, model, entry) {
        Ok(Some(entry))
    } else {
        Ok(None)
    }
}

fn place_of(model: &Model, name: Name) -> Option<u32>
    requires { length model.now.subs.items ≤ MOST_SUBS }
    ensures { result ≡ named_from 0 name (model_of model.now).subs }
{
    for (place, entry) in model.subs.iter().enumerate() {
        if entry.name == name {
            return Some(place as u32);
        }
    }
    None
}

// Whether the sub task of an entry may be made, among these sub tasks of the task.
fn may_be_made(
    tables: &Tables,
    plan: &Plan,
    subs: &[TaskId],
    task: TaskId,
    model: &Model,
    entry: u32,
) -> bool
    requires { IsPlanOf tables.now.tables plan.now }
    ensures { result ≡ spec.may_be_made (rows_of (planned tables.now.tables plan.now) subs.now)
        (model_of model.now) task.0 entry }
{
    model.instantiation == Trigger::Manual
        && !has_of_entry(tables, plan, subs, task, entry)
        && (model.composition == Composition::Parallel
            || all_ended(tables, plan, subs, task, entry as usize))
}
