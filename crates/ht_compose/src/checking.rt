ghost use Rattle.std.specs.Prelude.{◌≡◌, ◌&&◌, IfOk, OnErr};
ghost use Rattle.std.specs.List.{list_any};
ghost use Rattle.ht_base.specs.declared.moment.Moment.{Moment};
ghost use Rattle.ht_compose.specs.Finding.{rows_of};
ghost use Rattle.ht_compose.specs.Items.Item.{Check};
ghost use Rattle.ht_compose.specs.Running.{Acts};
ghost use Rattle.ht_models.specs.Contradictions.{is_automatic};
ghost use Rattle.ht_models.specs.Shown.{model_of};
ghost use Rattle.ht_base.specs.State.{is_final};
ghost use Rattle.ht_tree.specs.Plans.{IsPlanOf, IsSoundPlan, planned};
ghost use Rattle.ht_compose.specs.Items as spec;

use crate::downward::skip_below;
use crate::finishing::finish;
use crate::item::{Item, alone};
use ht_base::{Memory, State, TaskId};
use ht_entries::Trigger;
use ht_models::Model;
use ht_tree::{Plan, Row, Tables, sub_tasks};
use std::alloc::Global;

/// Plans that a task in progress finishes by itself, where one of its sub tasks has ended and a finish is
/// chosen (WS-HumanTask 1.1, 4.8).
pub(crate) fn check(
    alloc: Global,
    tables: &Tables,
    plan: &mut Plan,
    task: TaskId,
) -> Result<Vec<Item>, Memory>
    requires plan { IsSoundPlan tables.now.tables plan.old }
    ensures acts { IfOk result (λ puts.
        (at : Moment) → Acts tables.now.tables plan.old plan.new at (Check task.0) puts.items) }
    ensures marked { OnErr result (plan.new.marked ≡ plan.old.marked) }
{
    let Some(row) = plan.row(tables, task) else {
        return Ok(Vec::new(alloc));
    };
    let model = tables.models().model(row.model);
    if model.finishes.is_empty() {
        return Ok(Vec::new(alloc));
    }
    if !may_finish(row, model) {
        return Ok(Vec::new(alloc));
    }
    let subs = sub_tasks(alloc, tables, plan, task)?;
    if !has_final(tables, plan, &subs) {
        return Ok(Vec::new(alloc));
    }
    let found = finish(alloc, tables, plan, row, model, &subs)?;
    let Some(output) = found else {
        return Ok(Vec::new(alloc));
    };
    let mut row = plan.take(alloc, tables, task)?;
    row.output = output;
    plan.put(tables, row)?;
    skip_below(alloc, tables, plan, task)?;
    alone(alloc, Item::Close(task, State::Completed))
}

// Whether a task is in progress, and finishes by itself.
fn may_finish(row: &Row, model: &Model) -> bool
    ensures { result ≡ (spec.is_in_progress row.now.state
        && is_automatic (model_of model.now).completion) }
{
    row.state == State::InProgress && model.completion == Trigger::Automatic
}

// Whether one of these tasks has ended.
fn has_final(tables: &Tables, plan: &Plan, subs: &[TaskId]) -> bool
    requires { IsPlanOf tables.now.tables plan.now }
    ensures { result ≡ list_any (λ s. is_final s.state)
        (rows_of (planned tables.now.tables plan.now) subs.now) }
{
    for id in subs {
        if let Some(row) = plan.row(tables, *id) {
            if row.state.is_final() {
                return true;
            }
        }
    }
    false
}
