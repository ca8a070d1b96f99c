ghost use Rattle.std.specs.Prelude.{◌≡◌, ◌++◌, IfOk, IsTrue, OnOk, Some, map, option_map};
ghost use Rattle.ht_base.specs.Kinds.{kind_of_how, kind_of_value};
ghost use Rattle.ht_base.specs.Values.{value_of};
ghost use Rattle.ht_compose.specs.Finding.{Finds, rows_of};
ghost use Rattle.ht_compose.specs.Finishes as spec;
ghost use Rattle.ht_compose.specs.Finishes.{Sets, chosen_by, default, of_kind, with_result};
ghost use Rattle.ht_value.specs.Environment.{has_parts};
ghost use Rattle.ht_expr.specs.Kinds.{Declared};
ghost use Rattle.ht_expr.specs.KindTable.{same_kind};
ghost use Rattle.ht_models.specs.Kinded.{HasTruth, IsKinded, parts_of};
ghost use Rattle.ht_models.specs.Shown as shown;
ghost use Rattle.ht_tree.specs.Families as families;
ghost use Rattle.ht_tree.specs.Plans.{IsPlanOf, IsSoundPlan, planned};
ghost use Rattle.ht_tree.specs.Tables.{model_of, task_row};

use ht_aggregate::aggregate;
use ht_base::{How, Memory, Name, TaskId, Value, ValueList, Values};
use ht_entries::Setting;
use ht_expr::is_of_kind;
use ht_models::{Finish, Model};
use ht_tree::{Plan, Row, Tables, env_with};
use ht_value::{Env, truth};
use std::alloc::Global;

/// The output that a composite task with these sub tasks has when it finishes, as it would be after the
/// plan (WS-HumanTask 1.1, 4.8). None where it doesn't finish yet.
pub(crate) fn finish(
    alloc: Global,
    tables: &Tables,
    plan: &Plan,
    row: &Row,
    model: &Model,
    subs: &[TaskId],
) -> Result<Option<Values>, Memory>
    requires plan { IsSoundPlan tables.now.tables plan.now }
    requires row { task_row (planned tables.now.tables plan.now) row.now.task.0 ≡ Some row.now }
    requires model { model_of (planned tables.now.tables plan.now) row.now
        ≡ Some (shown.model_of model.now) }
    requires kinds { IsKinded model.now }
    requires subs { subs.now
        ≡ map (λ s. s.task)
        (families.sub_tasks row.now.task.0 (planned tables.now.tables plan.now).rows) }
    ensures { IfOk result
        (Finds (planned tables.now.tables plan.now) row.now (shown.model_of model.now)) }
{
    let env = env_with(alloc, tables, plan, row, subs)?;
    let Some(finish) = chosen(tables, plan, subs, row.task, model, &env) else {
        return Ok(None);
    };
    let completed = completed(alloc, tables, plan, subs, row.task, model.subs.len())?;
    let output = row.output.copy(alloc)?;
    let output = results(alloc, tables, plan, &completed, &finish.settings, output)?;
    Ok(Some(output))
}

// ---- the finish that is chosen

// The first finish whose condition is true. Where there is none, and the sub task of every entry has
// ended, it is the one without a condition.
fn chosen<'a>(
    tables: &Tables,
    plan: &Plan,
    subs: &[TaskId],
    task: TaskId,
    model: &'a Model,
    env: &Env,
) -> Option<&'a Finish>
    requires plan { IsPlanOf tables.now.tables plan.now }
    requires kinds { IsKinded model.now }
    requires parts { IsTrue
        (has_parts (parts_of model.now.input.items model.now.output.items) env.now) }
    ensures { option_map (λ f. shown.finish_of f.now) result
        ≡ chosen_by env.now (rows_of (planned tables.now.tables plan.now) subs.now)
        (shown.model_of model.now) task.0 }
{
    if let Some(finish) = first_true(model, env) {
        return Some(finish);
    }
    if all_ended(tables, plan, subs, task, model.subs.len()) {
        default_finish(model)
    } else {
        None
    }
}

fn first_true<'a>(model: &'a Model, env: &Env) -> Option<&'a Finish>
    requires kinds { IsKinded model.now }
    requires parts { IsTrue
        (has_parts (parts_of model.now.input.items model.now.output.items) env.now) }
    ensures { option_map (λ f. shown.finish_of f.now) result
        ≡ spec.first_true (shown.model_of model.now) env.now }
{
    for finish in &model.finishes {
        if applies(finish, env) {
            return Some(finish);
        }
    }
    None
}

// Whether the condition of a finish is true.
fn applies(finish: &Finish, env: &Env) -> bool
    requires { (kinds : Declared) × HasTruth kinds finish.now × IsTrue (has_parts kinds env.now) }
    ensures { (kinds : Declared) → HasTruth kinds finish.now
        → result ≡ spec.applies kinds env.now (shown.finish_of finish.now) }
{
    match &finish.when {
        Some(condition) => truth(condition, env),
        None => false,
    }
}

// The finish without a condition.
fn default_finish(model: &Model) -> Option<&Finish>
    ensures { option_map (λ f. shown.finish_of f.now) result
        ≡ default (shown.model_of model.now).finishes }
{
    for finish in &model.finishes {
        if finish.when.is_none() {
            return Some(finish);
        }
    }
    None
}

// Whether of each of as many entries of a task the sub task is there, and has ended.
pub(crate) fn all_ended(
    tables: &Tables,
    plan: &Plan,
    subs: &[TaskId],
    task: TaskId,
    entries: usize,
) -> bool
    requires { IsPlanOf tables.now.tables plan.now }
    ensures { result ≡ spec.all_ended task.0 entries
        (rows_of (planned tables.now.tables plan.now) subs.now) }
{
    let mut all = true;
    for entry in 0..entries {
        all = all && entry_ended(tables, plan, subs, task, entry);
    }
    all
}

fn entry_ended(tables: &Tables, plan: &Plan, subs: &[TaskId], task: TaskId, entry: usize) -> bool
    requires { IsPlanOf tables.now.tables plan.now }
    ensures { result ≡ spec.entry_ended task.0 entry
        (rows_of (planned tables.now.tables plan.now) subs.now) }
{
    for id in subs {
        if let Some(row) = plan.row(tables, *id) {
            if is_of_entry(row, task, entry) && row.state.is_final() {
                return true;
            }
        }
    }
    false
}

pub(crate) fn is_of_entry(row: &Row, task: TaskId, entry: usize) -> bool
    ensures { result ≡ families.is_of_entry task.0 entry row.now }
{
    match row.parent {
        Some((parent, place)) => parent == task && place as usize == entry,
        None => false,
    }
}

// ---- what it sets

// The numbers of the completed sub tasks of as many entries of a task, in the order of the entries.
fn completed(
    alloc: Global,
    tables: &Tables,
    plan: &Plan,
    subs: &[TaskId],
    task: TaskId,
    entries: usize,
) -> Result<Vec<TaskId>, Memory>
    requires { IsPlanOf tables.now.tables plan.now }
    ensures { IfOk result (λ ids.
        ids.items ≡ map (λ s. s.task) (spec.completed task.0 entries
        (rows_of (planned tables.now.tables plan.now) subs.now))) }
{
    let mut found = Vec::new(alloc);
    for entry in 0..entries {
        push_completed(tables, plan, subs, task, entry, &mut found)?;
    }
    Ok(found)
}

fn push_completed(
    tables: &Tables,
    plan: &Plan,
    subs: &[TaskId],
    task: TaskId,
    entry: usize,
    found: &mut Vec<TaskId>,
) -> Result<(), Memory>
    requires { IsPlanOf tables.now.tables plan.now }
    ensures { OnOk result (found.new.items
        ≡ found.old.items
        ++ map (λ s. s.task) (spec.completed_of task.0 entry
        (rows_of (planned tables.now.tables plan.now) subs.now))) }
{
    for id in subs {
        if let Some(row) = plan.row(tables, *id) {
            if is_of_entry(row, task, entry) && row.state.is_completed() {
                found.push(row.task)?;
            }
        }
    }
    Ok(())
}

// The output of a task, when all of these are set one after another.
fn results(
    alloc: Global,
    tables: &Tables,
    plan: &Plan,
    subs: &[TaskId],
    settings: &[Setting],
    output: Values,
) -> Result<Values, Memory>
    requires { IsPlanOf tables.now.tables plan.now }
    ensures { IfOk result
        (Sets (rows_of (planned tables.now.tables plan.now) subs.now) settings.now output) }
{
    let mut output = output;
    for setting in settings {
        let values = values_for(alloc, tables, plan, subs, setting)?;
        let result = aggregate(alloc, &setting.how, &values)?;
        put_result(&mut output, setting.part, result)?;
    }
    Ok(output)
}

// The values of these tasks of which a part is set.
fn values_for(
    alloc: Global,
    tables: &Tables,
    plan: &Plan,
    subs: &[TaskId],
    setting: &Setting,
) -> Result<ValueList, Memory>
    requires { IsPlanOf tables.now.tables plan.now }
    ensures { IfOk result (λ vs.
        vs ≡ spec.values_for setting.now.how setting.now.from
        (rows_of (planned tables.now.tables plan.now) subs.now)) }
{
    let mut values = ValueList::new(alloc);
    for id in subs {
        if let Some(row) = plan.row(tables, *id) {
            if let Some(value) = value_for(row, setting) {
                values.push(value.copy(alloc)?)?;
            }
        }
    }
    Ok(values)
}

// The value of the output part, where it is set and of the aggregate's kind.
fn value_for<'a>(row: &'a Row, setting: &Setting) -> Option<&'a Value>
    ensures { option_map (λ v. v.now) result
        ≡ of_kind (kind_of_how setting.now.how) (value_of setting.now.from row.now.output) }
{
    let value = row.output.value_of(&setting.from)?;
    if takes(&setting.how, value) {
        Some(value)
    } else {
        None
    }
}

// Whether the value is of the aggregate's kind.
fn takes(how: &How, value: &Value) -> bool
    ensures { result ≡ same_kind (kind_of_how how.now) (kind_of_value value.now) }
{
    is_of_kind(how.kind(), Some(value.kind()))
}

// No result leaves the part as it was.
fn put_result(output: &mut Values, part: Name, value: Option<Value>) -> Result<(), Memory>
    ensures { OnOk result (output.new ≡ with_result part value output.old) }
{
    match value {
        Some(value) => output.put(part, value),
        None => Ok(()),
    }
}
