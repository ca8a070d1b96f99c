ghost use Rattle.std.specs.Prelude.{◌≡◌, OnOk, Some, length};
ghost use Rattle.ht_base.specs.Persons.{AllBelow};
ghost use Rattle.ht_models.specs.Kinded.{IsKinded};
ghost use Rattle.ht_models.specs.Shown.{model_of};
ghost use Rattle.ht_owner.specs.Effects as spec;
ghost use Rattle.ht_owner.specs.Effects.{Gives};
ghost use Rattle.ht_owner.specs.Moving as moving;
ghost use Rattle.ht_tree.specs.Plans.{IsSoundPlan, planned};
ghost use Rattle.ht_tree.specs.Soundness.{Fits};
ghost use Rattle.ht_tree.specs.Tables as tables_of;
ghost use Rattle.ht_tree.specs.Tables.{directory};

use crate::faults::{fault, no_output};
use crate::moving::{ending, move_by};
use crate::naming::{forwarded, persons_named, with_named, without_named};
use crate::suspending::end_at;
use crate::{ActRefusal, Follow};
use ht_base::{Command, Memory, Moment, Name, Op, Parts, Person, RoleList, Values};
use ht_finding::values_given;
use ht_models::Model;
use ht_people::Directory;
use ht_tree::{Comment, Plan, Row, Tables};
use std::alloc::Global;
use std::mem;

/// Makes of the row of a task of this model what a caller's command makes of it, and tells what follows.
/// After a refusal or want of memory the row may be changed in part, and is to be dropped.
pub(crate) fn effect(
    alloc: Global,
    tables: &Tables,
    plan: &Plan,
    model: &Model,
    caller: Person,
    at: Moment,
    command: &Command,
    row: &mut Row,
) -> Result<Follow, ActRefusal>
    requires plan { IsSoundPlan tables.now.tables plan.now }
    requires row { Fits tables.now.tables row.old }
    requires model { tables_of.model_of tables.now.tables row.old ≡ Some (model_of model.now) }
    requires kinds { IsKinded model.now }
    ensures { Gives (spec.effect (planned tables.now.tables plan.now) (model_of model.now) caller at
        command.now row.old) row.new result }
{
    if let Some(refusal) = fault(alloc, tables, plan, model, at, row, command)? {
        return Err(ActRefusal::Refused(refusal));
    }
    let people = tables.people();
    prepare(alloc, people, model, caller, at, command, row)?;
    if let Some(refusal) = no_output(model, row, command) {
        return Err(ActRefusal::Refused(refusal));
    }
    match ending(row.state, command.op()) {
        Some(end) => Ok(Follow::Close(end)),
        None => {
            let follow = following(command);
            let named = named_owner(people, caller, command);
            move_now(row, follow, command.op(), caller, named);
            Ok(follow)
        }
    }
}

// Moves the row as the operation does, unless an activation follows.
fn move_now(row: &mut Row, follow: Follow, op: Op, caller: Person, named: Person)
    ensures { row.new ≡ spec.moved_now follow row.old (moving.moved op caller named row.old) }
{
    match follow {
        Follow::Activate => {}
        _ => move_by(row, op, caller, named),
    }
}

// The person whom a command names as the owner.
fn named_owner(people: &Directory, caller: Person, command: &Command) -> Person
    ensures { result ≡ spec.named_owner people.now caller command.now }
{
    match command {
        Command::Delegate { person } => people.find(*person).unwrap_or(caller),
        _ => caller,
    }
}

fn following(command: &Command) -> Follow
    ensures { result ≡ spec.following command.now }
{
    match command {
        Command::Start => Follow::Began,
        Command::Activate => Follow::Activate,
        Command::Suspend => Follow::Held,
        Command::SuspendUntil { .. } => Follow::Held,
        Command::Resume => Follow::Freed,
        _ => Follow::Nothing,
    }
}

// Makes what the command itself changes, before the table of changes moves the task.
fn prepare(
    alloc: Global,
    people: &Directory,
    model: &Model,
    caller: Person,
    at: Moment,
    command: &Command,
    row: &mut Row,
) -> Result<(), Memory>
    requires { AllBelow (length people.now.persons) row.old.potential_owners }
    ensures { OnOk result
        (row.new ≡ spec.prepared people.now (model_of model.now) caller at command.now row.old) }
{
    match command {
        Command::Delegate { person } => {
            row.potential_owners = with_named(alloc, people, &row.potential_owners, &[*person])?;
        }
        Command::Forward { persons } => {
            row.potential_owners = forwarded(alloc, people, caller, row, persons.as_slice())?;
        }
        Command::Nominate { persons } => {
            row.potential_owners = persons_named(alloc, people, persons.as_slice())?;
            row.by_group = false;
        }
        Command::SetRole { role, persons } => {
            return set_role(alloc, people, row, *role, persons.as_slice());
        }
        Command::SetPriority { priority } => row.priority = *priority,
        Command::SuspendUntil { end } => row.until = Some(end_at(at, *end)),
        Command::SetOutput { output } => return set_output(alloc, people, model, row, output),
        Command::Complete { output } => return set_output(alloc, people, model, row, output),
        Command::Fail { fault } => row.fault = *fault,
        Command::AddComment { text } => {
            let text = text.copy(alloc)?;
            let comment = Comment {
                moment: at,
                person: caller,
                text,
            };
            row.comments.push(alloc, comment)?;
        }
        _ => {}
    }
    Ok(())
}

// Sets these parts of the row's output.
fn set_output(
    alloc: Global,
    people: &Directory,
    model: &Model,
    row: &mut Row,
    output: &Parts,
) -> Result<(), Memory>
    ensures { OnOk result
        (row.new ≡ spec.with_output people.now (model_of model.now) row.old output.now) }
{
    let given = values_given(alloc, people, &model.output, output)?;
    let output = mem::replace(&mut row.output, Values::new(alloc));
    row.output = output.updated(given)?;
    Ok(())
}

// Puts other persons into a role of the row.
fn set_role(
    alloc: Global,
    people: &Directory,
    row: &mut Row,
    role: RoleList,
    names: &[Name],
) -> Result<(), Memory>
    requires { AllBelow (length people.now.persons) row.old.potential_owners }
    ensures { OnOk result (row.new ≡ spec.with_role people.now row.old names.now role) }
{
    let persons = persons_named(alloc, people, names)?;
    match role {
        RoleList::PotentialOwners => {
            row.potential_owners = persons;
            row.by_group = false;
        }
        RoleList::ExcludedOwners => {
            row.potential_owners = without_named(alloc, people, &row.potential_owners, names)?;
            row.excluded_owners = persons;
        }
        RoleList::Administrators => row.administrators = persons,
        RoleList::Stakeholders => row.stakeholders = persons,
    }
    Ok(())
}
