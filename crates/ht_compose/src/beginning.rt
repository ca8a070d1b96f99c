ghost use Rattle.std.specs.Prelude.{◌≡◌, ◌≤◌, true, IfOk, length, map, OnErr};
ghost use Rattle.ht_base.specs.declared.limits.TheConstants.{MOST_SUBS};
ghost use Rattle.ht_base.specs.declared.moment.Moment.{Moment};
ghost use Rattle.ht_compose.specs.Items.Item.{Begin};
ghost use Rattle.ht_compose.specs.Running.{Acts};
ghost use Rattle.ht_tree.specs.Plans.{IsSoundPlan};
ghost use Rattle.ht_compose.specs.Items as spec;
ghost use Rattle.ht_compose.specs.Running.{item_of};
ghost use Rattle.ht_models.specs.Shown.{model_of};

use crate::item::Item;
use ht_base::{Memory, State, TaskId};
use ht_entries::{Composition, Trigger};
use ht_models::Model;
use ht_tree::{Plan, Row, Tables};
use std::alloc::Global;

/// Plans that a task in progress has begun, and that its first entries are made where it hadn't.
pub(crate) fn begin(
    alloc: Global,
    tables: &Tables,
    plan: &mut Plan,
    task: TaskId,
) -> Result<Vec<Item>, Memory>
    requires plan { IsSoundPlan tables.now.tables plan.old }
    ensures acts { IfOk result (λ puts.
        (at : Moment) → Acts tables.now.tables plan.old plan.new at (Begin task.0) puts.items) }
    ensures marked { OnErr result (plan.new.marked ≡ plan.old.marked) }
{
    let Some(row) = plan.row(tables, task) else {
        return Ok(Vec::new(alloc));
    };
    if row.state != State::InProgress {
        return Ok(Vec::new(alloc));
    }
    let puts = begun_with(alloc, tables.models().model(row.model), row)?;
    let row = plan.take(alloc, tables, task)?;
    plan.put(tables, begun(row))?;
    Ok(puts)
}

fn begun(row: Row) -> Row
    ensures { result ≡ record row { started = true } }
{
    let mut row = row;
    row.started = true;
    row
}

// What is to be done where a task begins.
fn begun_with(alloc: Global, model: &Model, row: &Row) -> Result<Vec<Item>, Memory>
    requires { length model.now.subs.items ≤ MOST_SUBS }
    ensures { IfOk result
        (λ items. map item_of items.items ≡ spec.begun_with (model_of model.now) row.now) }
{
    let mut items = Vec::new(alloc);
    if !row.started && model.instantiation == Trigger::Automatic {
        for entry in 0..first_entries(model) {
            items.push(Item::Make(row.task, entry))?;
        }
    }
    items.push(Item::Check(row.task))?;
    Ok(items)
}

// How many entries are made first: all, or one where they come one behind another.
fn first_entries(model: &Model) -> u32
    requires { length model.now.subs.items ≤ MOST_SUBS }
    ensures { result ≡ spec.first_entries (model_of model.now) }
{
    let count = model.subs.len() as u32;
    match model.composition {
        Composition::Sequential => count.min(1),
        Composition::Parallel => count,
    }
}
