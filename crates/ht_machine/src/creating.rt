ghost use Rattle.std.specs.Prelude.{◌≡◌, ◌<◌, ◌≤◌, IfOk, IfSome, OnOk, length};
ghost use Rattle.ht_base.specs.Events.{AreGiven};
ghost use Rattle.ht_base.specs.Moment.{last_moment};
ghost use Rattle.ht_compose.specs.Reaching.{IsTask};
ghost use Rattle.ht_machine.specs.Commands as commands;
ghost use Rattle.ht_machine.specs.Commands.{Creates};
ghost use Rattle.ht_machine.specs.Planning as spec;
ghost use Rattle.ht_machine.specs.Planning.{Finds, IsActivated, Tries};
ghost use Rattle.ht_models.specs.Shown.{model_of};
ghost use Rattle.ht_tree.specs.Plans.{IsSoundPlan, planned};

use ht_base::{Limit, Memory, Moment, Name, Parts, Person, Refusal, TaskId, Unknown};
use ht_compose::activate;
use ht_finding::{refused_part, values_given};
use ht_models::Model;
use ht_owner::ActRefusal;
use ht_people::Directory;
use ht_tree::{CreateRefusal, Plan, Tables};
use std::alloc::Global;

/// Plans a new task of the model with this name, or else of the first, and its activation, unless it
/// waits until a later moment.
// Apart from the other commands, for which its locals would be cleared too.
#[inline(never)]
pub(crate) fn create(
    alloc: Global,
    tables: &Tables,
    plan: &mut Plan,
    caller: Person,
    at: Moment,
    model: Option<Name>,
    input: &Parts,
    waits: Option<Moment>,
) -> Result<TaskId, ActRefusal>
    requires plan { IsSoundPlan tables.now.tables plan.old }
    requires caller { caller < length tables.now.tables.people.persons }
    requires at { at.0 ≤ last_moment }
    requires input { AreGiven input.now }
    requires waits { IfSome waits (λ m. m.0 ≤ last_moment) }
    ensures { Tries tables.now.tables plan.old plan.new
        (Creates (planned tables.now.tables plan.old) caller at.0 model input.now waits) result }
{
    let place = place_of(tables, model)?;
    let model = tables.models().model(place);
    if let Some(refusal) = why_not_created(tables.people(), model, input) {
        return Err(ActRefusal::Refused(refusal));
    }
    let values = values_given(alloc, tables.people(), &model.input, input)?;
    let created = ht_tree::create(alloc, tables, plan, place, None, caller, values, waits, at);
    match created {
        Ok(task) => {
            activate_unless(alloc, tables, plan, at, waits, task)?;
            Ok(task)
        }
        Err(refusal) => Err(refusal_of(refusal)),
    }
}

// Plans the activation of a new task, unless it waits.
fn activate_unless(
    alloc: Global,
    tables: &Tables,
    plan: &mut Plan,
    at: Moment,
    waits: Option<Moment>,
    task: TaskId,
) -> Result<(), Memory>
    requires plan { IsSoundPlan tables.now.tables plan.old }
    requires there { IsTask (planned tables.now.tables plan.old) task.0 }
    requires at { at.0 ≤ last_moment }
    ensures { OnOk result (IsActivated tables.now.tables plan.old plan.new at waits task.0) }
{
    match waits {
        None => activate(alloc, tables, plan, task, at),
        Some(_) => Ok(()),
    }
}

// The place of the model with this name, or else of the first.
fn place_of(tables: &Tables, name: Option<Name>) -> Result<u32, ActRefusal>
    ensures finds { Finds tables.now.tables name result }
    ensures within { IfOk result (λ place. place < length tables.now.tables.models) }
{
    let models = tables.models();
    let Some(name) = name else {
        let has_first = models.count() > 0;
        prove!(has_first);
        return Ok(0);
    };
    match models.find(name) {
        Some(place) => Ok(place),
        None => Err(ActRefusal::Refused(Refusal::Unknown(Unknown::Model(name)))),
    }
}

// Why no task of the model can be created, to which this is given.
fn why_not_created(people: &Directory, model: &Model, input: &Parts) -> Option<Refusal>
    ensures { result ≡ commands.why_not_created people.now (model_of model.now) input.now }
{
    let part = refused_part(people, true, &model.input, input)?;
    Some(Refusal::PartRefused(part))
}

fn refusal_of(refusal: CreateRefusal) -> ActRefusal
    ensures { result ≡ spec.refusal_of refusal }
{
    match refusal {
        CreateRefusal::Memory => ActRefusal::Memory,
        CreateRefusal::TaskLimit => ActRefusal::Refused(Refusal::Limit(Limit::Tasks)),
    }
}
