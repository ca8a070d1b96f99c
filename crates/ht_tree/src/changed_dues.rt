ghost use Rattle.std.specs.Prelude.{◌≡◌, ◌++◌, ◌<◌, ◌&&◌, [], IfOk, IfSome, OnOk, length, nat_lt, option_map};
ghost use Rattle.std.specs.Option.{option_map_or};
ghost use Rattle.ht_due.specs.declared.due.Due.{Due};
ghost use Rattle.ht_due.specs.Dues.{Ascends, has};
ghost use Rattle.ht_tree.specs.Plans.{IsPlanOf, IsSoundPlan, planned};
ghost use Rattle.ht_tree.specs.RowDues as spec;

use crate::row_dues::{add_dues, has_due};
use crate::{Plan, Row, Tables};
use ht_base::{Memory, TaskId};
use ht_due::{Due, in_order};
use ht_models::Models;
use std::alloc::Global;

/// The dues of the tasks that a plan changes, as they are, in ascending order.
pub(crate) fn dues_before(alloc: Global, tables: &Tables, plan: &Plan) -> Result<Vec<Due>, Memory>
    ensures { IfOk result (λ dues.
        dues.items ≡ spec.changed_dues tables.now.tables.models tables.now.tables.rows
        plan.now.changes.rows) }
{
    let mut dues = Vec::new(alloc);
    for put in plan.puts() {
        add_dues_of(tables.models(), tables.row(put.task), &mut dues)?;
    }
    in_order(&mut dues);
    Ok(dues)
}

/// The dues of the tasks that a plan changes, as they would be after it, in ascending order.
pub fn dues_after(alloc: Global, tables: &Tables, plan: &Plan) -> Result<Vec<Due>, Memory>
    requires { IsPlanOf tables.now.tables plan.now }
    ensures { IfOk result (λ dues.
        dues.items ≡ spec.changed_dues tables.now.tables.models
        (planned tables.now.tables plan.now).rows plan.now.changes.rows) }
{
    let mut dues = Vec::new(alloc);
    for put in plan.puts() {
        add_dues_of(tables.models(), plan.row(tables, put.task), &mut dues)?;
    }
    in_order(&mut dues);
    Ok(dues)
}

/// The dues that there would be after the plan of the tasks with greater numbers than this one, in
/// ascending order.
pub fn dues_behind(
    alloc: Global,
    tables: &Tables,
    plan: &Plan,
    last: u32,
) -> Result<Vec<Due>, Memory>
    requires plan { IsSoundPlan tables.now.tables plan.now }
    ensures ascend { IfOk result (λ dues. Ascends dues.items) }
    ensures has { IfOk result (λ dues.
        (due : Due)
        → has due dues.items ≡ (nat_lt last due.task.0
        && has due (spec.all_dues (planned tables.now.tables plan.now)))) }
{
    let mut dues = Vec::new(alloc);
    for id in last..plan.rows(tables) {
        add_dues_of(tables.models(), plan.row(tables, TaskId(id + 1)), &mut dues)?;
    }
    in_order(&mut dues);
    Ok(dues)
}

/// Whether a due is one of those that there would be after the plan.
pub fn is_due(tables: &Tables, plan: &Plan, due: Due) -> bool
    requires plan { IsSoundPlan tables.now.tables plan.now }
    ensures { result ≡ has due (spec.all_dues (planned tables.now.tables plan.now)) }
{
    match plan.row(tables, due.task) {
        Some(row) => has_due(tables.models(), row, due),
        None => false,
    }
}

fn add_dues_of(models: &Models, row: Option<&Row>, dues: &mut Vec<Due>) -> Result<(), Memory>
    requires { IfSome row (λ r. r.now.model < length models.now) }
    ensures { OnOk result (dues.new.items
        ≡ dues.old.items
        ++ option_map_or (spec.row_dues models.now) (option_map (λ r. r.now) row.entry) []) }
{
    match row {
        Some(row) => add_dues(models, row, dues),
        None => Ok(()),
    }
}
