ghost use Rattle.std.specs.Prelude.{◌≡◌, ◌≤◌, ◌<◌, IfOk, IfSome, length, option_map, slice_get, OnErr};
ghost use Rattle.std.specs.List.{list_any};
ghost use Rattle.ht_base.specs.Moment.{last_moment};
ghost use Rattle.ht_base.specs.Places.{place_in};
ghost use Rattle.ht_models.specs.Model.{names};
ghost use Rattle.ht_models.specs.Shown.{model_of};
ghost use Rattle.ht_compose.specs.Finding.{rows_of};
ghost use Rattle.ht_compose.specs.Items.Item.{Make};
ghost use Rattle.ht_compose.specs.Running.{Acts};
ghost use Rattle.ht_tree.specs.Plans.{IsPlanOf, IsSoundPlan, planned};
ghost use Rattle.ht_compose.specs.Items as spec;
ghost use Rattle.ht_tree.specs.Families as made;

use crate::finishing::is_of_entry;
use crate::item::{Item, alone};
use ht_base::{Memory, Moment, TaskId, Values};
use ht_entries::SubEntry;
use ht_models::{Model, Models};
use ht_tree::{CreateRefusal, Plan, Tables, sub_tasks};
use std::alloc::Global;

/// Plans the sub task of an entry, where the task hasn't ended and the entry isn't made.
pub(crate) fn make(
    alloc: Global,
    tables: &Tables,
    plan: &mut Plan,
    at: Moment,
    task: TaskId,
    entry: u32,
) -> Result<Vec<Item>, Memory>
    requires plan { IsSoundPlan tables.now.tables plan.old }
    requires at { at.0 ≤ last_moment }
    ensures acts { IfOk result
        (λ puts. Acts tables.now.tables plan.old plan.new at (Make task.0 entry) puts.items) }
    ensures marked { OnErr result (plan.new.marked ≡ plan.old.marked) }
{
    let Some(row) = plan.row(tables, task) else {
        return Ok(Vec::new(alloc));
    };
    if row.state.is_final() || is_made(alloc, tables, plan, task, entry)? {
        return Ok(Vec::new(alloc));
    }
    let Some(sub) = entry_at(tables.models().model(row.model), entry) else {
        return Ok(Vec::new(alloc));
    };
    let Some(model) = place_of(tables.models(), sub) else {
        return Ok(Vec::new(alloc));
    };
    let input = mapped(alloc, sub, &row.input)?;
    let initiator = row.owner.unwrap_or(row.initiator);
    let parent = Some((task, entry));
    match ht_tree::create(
        alloc, tables, plan, model, parent, initiator, input, None, at,
    ) {
        Ok(new) => alone(alloc, Item::Activate(new)),
        Err(CreateRefusal::Memory) => Err(Memory),
        Err(CreateRefusal::TaskLimit) => unreachable!(),
    }
}

// Whether the entry of a task has a sub task.
fn is_made(
    alloc: Global,
    tables: &Tables,
    plan: &Plan,
    task: TaskId,
    entry: u32,
) -> Result<bool, Memory>
    requires plan { IsSoundPlan tables.now.tables plan.now }
    ensures { IfOk result
        (λ b. b ≡ made.is_made task.0 entry (planned tables.now.tables plan.now).rows) }
{
    let subs = sub_tasks(alloc, tables, plan, task)?;
    Ok(has_of_entry(tables, plan, &subs, task, entry))
}

// Whether one of these tasks is of the entry.
pub(crate) fn has_of_entry(
    tables: &Tables,
    plan: &Plan,
    subs: &[TaskId],
    task: TaskId,
    entry: u32,
) -> bool
    requires { IsPlanOf tables.now.tables plan.now }
    ensures { result ≡ list_any (made.is_of_entry task.0 entry)
        (rows_of (planned tables.now.tables plan.now) subs.now) }
{
    for id in subs {
        if let Some(row) = plan.row(tables, *id) {
            if is_of_entry(row, task, entry as usize) {
                return true;
            }
        }
    }
    false
}

// The sub entry of a model at a place.
fn entry_at(model: &Model, place: u32) -> Option<&SubEntry>
    ensures { option_map (λ s. s.now) result ≡ slice_get (model_of model.now).subs place }
{
    model.subs.get(place as usize)
}

// The place of the model of a sub entry.
fn place_of(models: &Models, sub: &SubEntry) -> Option<u32>
    ensures value { result ≡ place_in sub.now.model (names models.now) }
    ensures within { IfSome result (λ place. place < length models.now) }
{
    models.find(sub.model)
}

// The values of the input parts of a sub task.
fn mapped(alloc: Global, sub: &SubEntry, input: &Values) -> Result<Values, Memory>
    ensures { IfOk result (λ values. values ≡ spec.mapped sub.now input.now) }
{
    let mut values = Values::new(alloc);
    for (part, from) in &sub.input {
        if let Some(value) = input.value_of(&from.0) {
            values.put(part.0, value.copy(alloc)?)?;
        }
    }
    Ok(values)
}
