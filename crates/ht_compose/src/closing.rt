ghost use Rattle.std.specs.Prelude.{◌≡◌, IfOk, IsTrue, OnErr};
ghost use Rattle.ht_base.specs.declared.moment.Moment.{Moment};
ghost use Rattle.ht_compose.specs.Items.Item.{Close, Next, Up};
ghost use Rattle.ht_compose.specs.Running.{Acts};
ghost use Rattle.ht_tree.specs.Plans.{IsSoundPlan};
ghost use Rattle.ht_compose.specs.Items as spec;
ghost use Rattle.ht_models.specs.Shown.{model_of};
ghost use Rattle.ht_base.specs.State.{is_final};

use crate::downward::close_family;
use crate::item::{Item, alone, both};
use ht_base::{Memory, State, TaskId};
use ht_entries::{Composition, Trigger};
use ht_models::Model;
use ht_tree::{Plan, Tables};
use std::alloc::Global;

/// Plans that a task that hasn't ended does so with all below it, and that its parent hears of it.
pub(crate) fn close(
    alloc: Global,
    tables: &Tables,
    plan: &mut Plan,
    task: TaskId,
    end: State,
) -> Result<Vec<Item>, Memory>
    requires plan { IsSoundPlan tables.now.tables plan.old }
    requires end { IsTrue (is_final end) }
    ensures acts { IfOk result (λ puts.
        (at : Moment) → Acts tables.now.tables plan.old plan.new at (Close task.0 end) puts.items) }
    ensures marked { OnErr result (plan.new.marked ≡ plan.old.marked) }
{
    let Some(row) = plan.row(tables, task) else {
        return Ok(Vec::new(alloc));
    };
    if row.state.is_final() {
        return Ok(Vec::new(alloc));
    }
    let parent = row.parent;
    close_family(alloc, tables, plan, task, end)?;
    match parent {
        Some((above, _)) => alone(alloc, Item::Up(above, task)),
        None => Ok(Vec::new(alloc)),
    }
}

/// Plans what a parent makes of the end of a sub task: it fails with one that failed, where its entries
/// come by themselves, and else is checked and goes on to the next entry.
pub(crate) fn up(
    alloc: Global,
    tables: &Tables,
    plan: &mut Plan,
    above: TaskId,
    sub: TaskId,
) -> Result<Vec<Item>, Memory>
    requires plan { IsSoundPlan tables.now.tables plan.old }
    ensures acts { IfOk result (λ puts.
        (at : Moment) → Acts tables.now.tables plan.old plan.new at (Up above.0 sub.0) puts.items) }
    ensures marked { OnErr result (plan.new.marked ≡ plan.old.marked) }
{
    let Some(child) = plan.row(tables, sub) else {
        return Ok(Vec::new(alloc));
    };
    let (failed, fault) = (has_failed(child.state), child.fault);
    let Some(row) = plan.row(tables, above) else {
        return Ok(Vec::new(alloc));
    };
    if row.state.is_final() {
        return Ok(Vec::new(alloc));
    }
    let model = tables.models().model(row.model);
    if !failed || model.instantiation != Trigger::Automatic {
        return both(alloc, Item::Check(above), Item::Next(above, sub));
    }
    let mut row = plan.take(alloc, tables, above)?;
    row.fault = fault;
    plan.put(tables, row)?;
    alone(alloc, Item::Close(above, State::Failed))
}

fn has_failed(state: State) -> bool
    ensures { result ≡ spec.has_failed state }
{
    matches!(state, State::Failed | State::Error)
}

/// Plans that the entry behind that of a sub task is made, where entries come one behind another by
/// themselves.
pub(crate) fn next(
    alloc: Global,
    tables: &Tables,
    plan: &mut Plan,
    above: TaskId,
    sub: TaskId,
) -> Result<Vec<Item>, Memory>
    requires plan { IsSoundPlan tables.now.tables plan.old }
    ensures acts { IfOk result (λ puts.
        (at : Moment)
        → Acts tables.now.tables plan.old plan.new at (Next above.0 sub.0) puts.items) }
    ensures marked { OnErr result (plan.new.marked ≡ plan.old.marked) }
{
    let Some(child) = plan.row(tables, sub) else {
        return Ok(Vec::new(alloc));
    };
    let Some((_, entry)) = child.parent else {
        return Ok(Vec::new(alloc));
    };
    let Some(row) = plan.row(tables, above) else {
        return Ok(Vec::new(alloc));
    };
    let model = tables.models().model(row.model);
    if row.state.is_final() || !comes_next(model, entry) {
        return Ok(Vec::new(alloc));
    }
    alone(alloc, Item::Make(above, entry + 1))
}

// Whether an entry follows this one by itself.
fn comes_next(model: &Model, entry: u32) -> bool
    ensures { result ≡ spec.comes_next (model_of model.now) entry }
{
    model.composition == Composition::Sequential
        && model.instantiation == Trigger::Automatic
        && (entry as usize) + 1 < model.subs.len()
}
