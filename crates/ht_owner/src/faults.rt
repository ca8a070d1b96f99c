ghost use Rattle.std.specs.Prelude.{◌≡◌, IfOk, Some};
ghost use Rattle.ht_models.specs.Kinded.{IsKinded};
ghost use Rattle.ht_models.specs.Shown.{model_of};
ghost use Rattle.ht_owner.specs.Faults as spec;
ghost use Rattle.ht_tree.specs.Plans.{IsSoundPlan, planned};
ghost use Rattle.ht_tree.specs.Soundness.{Fits};
ghost use Rattle.ht_tree.specs.Tables as tables_of;
ghost use Rattle.ht_tree.specs.Tables.{directory, TablesOf};

use crate::suspending::end_at;
use ht_base::{
    Command, End, Limit, MOST_COMMENTS, Memory, Moment, Name, Parts, Person, Persons, Refusal,
    RoleList, Unknown, Values,
};
use ht_entries::{Delegation, Part};
use ht_finding::refused_part;
use ht_models::Model;
use ht_people::Directory;
use ht_tree::{Plan, Row, Tables, resolve};
use std::alloc::Global;

/// Why a command on a task of this model isn't done, if it isn't.
pub(crate) fn fault(
    alloc: Global,
    tables: &Tables,
    plan: &Plan,
    model: &Model,
    at: Moment,
    row: &Row,
    command: &Command,
) -> Result<Option<Refusal>, Memory>
    requires plan { IsSoundPlan tables.now.tables plan.now }
    requires row { Fits tables.now.tables row.now }
    requires model { tables_of.model_of tables.now.tables row.now ≡ Some (model_of model.now) }
    requires kinds { IsKinded model.now }
    ensures { IfOk result (λ o.
        o ≡ spec.fault (planned tables.now.tables plan.now) (model_of model.now) at row.now
        command.now) }
{
    let people = tables.people();
    let excluded_owners = &row.excluded_owners;
    match command {
        Command::Create { .. } => Ok(None),
        Command::Claim => Ok(None),
        Command::Start => Ok(None),
        Command::Stop => Ok(first(&[ownerless(model)])),
        Command::Release => Ok(first(&[ownerless(model)])),
        Command::Delegate { person } => Ok(first(&[
            ownerless(model),
            unknown(people, &[*person]),
            excluded(people, excluded_owners, &[*person]),
            not_delegatee(alloc, tables, plan, model, row, *person)?,
        ])),
        Command::Forward { persons } => Ok(first(&[
            ownerless(model),
            by_group(row),
            unknown(people, persons.as_slice()),
            excluded(people, excluded_owners, persons.as_slice()),
        ])),
        Command::Nominate { persons } => Ok(first(&[
            ownerless(model),
            unknown(people, persons.as_slice()),
            excluded(people, excluded_owners, persons.as_slice()),
        ])),
        Command::Activate => Ok(first(&[no_owners(model, row)])),
        Command::SetRole { role, persons } => {
            Ok(role_fault(people, model, row, *role, persons.as_slice()))
        }
        Command::SetPriority { .. } => Ok(None),
        Command::Suspend => Ok(None),
        Command::SuspendUntil { end } => Ok(first(&[until_past(at, *end)])),
        Command::Resume => Ok(None),
        Command::SetOutput { output } => Ok(first(&[output_refused(people, model, output)])),
        Command::Complete { output } => Ok(first(&[output_refused(people, model, output)])),
        Command::Fail { .. } => Ok(None),
        Command::Skip => Ok(first(&[not_skipable(model)])),
        Command::Exit => Ok(None),
        Command::Error => Ok(None),
        Command::AddComment { .. } => Ok(first(&[fully_commented(row)])),
        Command::InstantiateSubTask { .. } => Ok(None),
    }
}

fn role_fault(
    people: &Directory,
    model: &Model,
    row: &Row,
    role: RoleList,
    names: &[Name],
) -> Option<Refusal>
    ensures { result
        ≡ spec.first_of (spec.role_faults people.now (model_of model.now) row.now names.now role) }
{
    match role {
        RoleList::PotentialOwners => first(&[
            ownerless(model),
            unknown(people, names),
            excluded(people, &row.excluded_owners, names),
        ]),
        RoleList::ExcludedOwners => {
            first(&[unknown(people, names), owner_named(people, row, names)])
        }
        RoleList::Administrators => first(&[unknown(people, names)]),
        RoleList::Stakeholders => first(&[unknown(people, names)]),
    }
}

// The first of these faults that there is.
fn first(faults: &[Option<Refusal>]) -> Option<Refusal>
    ensures { result ≡ spec.first_of faults.now }
{
    for fault in faults {
        if let Some(refusal) = fault {
            return Some(*refusal);
        }
    }
    None
}

fn ownerless(model: &Model) -> Option<Refusal>
    ensures { result ≡ spec.ownerless (model_of model.now) }
{
    if model.owner_required {
        None
    } else {
        Some(Refusal::Ownerless)
    }
}

fn no_owners(model: &Model, row: &Row) -> Option<Refusal>
    ensures { (u : TablesOf) → result ≡ spec.no_owners u (model_of model.now) row.now }
{
    if model.owner_required && row.potential_owners.as_slice().is_empty() {
        Some(Refusal::NoOwners)
    } else {
        None
    }
}

fn by_group(row: &Row) -> Option<Refusal>
    ensures { result ≡ spec.by_group row.now }
{
    if row.by_group {
        Some(Refusal::ByGroup)
    } else {
        None
    }
}

fn output_refused(people: &Directory, model: &Model, output: &Parts) -> Option<Refusal>
    ensures { result ≡ spec.output_refused people.now (model_of model.now) output.now }
{
    let part = refused_part(people, false, &model.output, output)?;
    Some(Refusal::PartRefused(part))
}

fn not_skipable(model: &Model) -> Option<Refusal>
    ensures { result ≡ spec.not_skipable (model_of model.now) }
{
    if model.skipable {
        None
    } else {
        Some(Refusal::NotSkipable)
    }
}

fn until_past(at: Moment, end: End) -> Option<Refusal>
    ensures { result ≡ spec.until_past at end }
{
    if at < end_at(at, end) {
        None
    } else {
        Some(Refusal::UntilPast)
    }
}

fn fully_commented(row: &Row) -> Option<Refusal>
    ensures { result ≡ spec.fully_commented row.now }
{
    if row.comments.count() < MOST_COMMENTS {
        None
    } else {
        Some(Refusal::Limit(Limit::Comments))
    }
}

/// The first part of the output without a value that it must have, of a task that is to be completed
/// and whose output was set.
pub(crate) fn no_output(model: &Model, row: &Row, command: &Command) -> Option<Refusal>
    ensures { result ≡ spec.no_output (model_of model.now) row.now command.now }
{
    match command {
        Command::Complete { .. } => unset_output(&model.output, &row.output),
        _ => None,
    }
}

fn unset_output(parts: &[Part], output: &Values) -> Option<Refusal>
    ensures { result ≡ spec.first_unset output.now parts.now }
{
    for part in parts {
        if !part.optional && output.value_of(&part.name).is_none() {
            return Some(Refusal::NoOutput(part.name));
        }
    }
    None
}

// The first of the names that is no person's.
fn unknown(people: &Directory, names: &[Name]) -> Option<Refusal>
    ensures { result ≡ spec.unknown_person people.now names.now }
{
    for name in names {
        if people.find(*name).is_none() {
            return Some(Refusal::Unknown(Unknown::Person(*name)));
        }
    }
    None
}

// The first of the names whose person is one of these.
fn excluded(people: &Directory, persons: &Persons, names: &[Name]) -> Option<Refusal>
    ensures { result ≡ spec.excluded people.now persons.now names.now }
{
    for name in names {
        if is_among(people, persons, *name) {
            return Some(Refusal::Excluded(*name));
        }
    }
    None
}

fn is_among(people: &Directory, persons: &Persons, name: Name) -> bool
    ensures { result ≡ spec.is_among people.now persons.now name }
{
    match people.find(name) {
        Some(person) => persons.contains(person),
        None => false,
    }
}

// The first of the names that is the actual owner's.
fn owner_named(people: &Directory, row: &Row, names: &[Name]) -> Option<Refusal>
    ensures { result ≡ spec.owner_named people.now row.now.owner names.now }
{
    for name in names {
        if is_owner(people, row, *name) {
            return Some(Refusal::Excluded(*name));
        }
    }
    None
}

fn is_owner(people: &Directory, row: &Row, name: Name) -> bool
    ensures { result ≡ spec.is_owner people.now row.now.owner name }
{
    match people.find(name) {
        Some(person) => row.owner == Some(person),
        None => false,
    }
}

// Whether the task can't be delegated to the person of this name, by its model.
fn not_delegatee(
    alloc: Global,
    tables: &Tables,
    plan: &Plan,
    model: &Model,
    row: &Row,
    name: Name,
) -> Result<Option<Refusal>, Memory>
    requires plan { IsSoundPlan tables.now.tables plan.now }
    requires row { Fits tables.now.tables row.now }
    requires model { tables_of.model_of tables.now.tables row.now ≡ Some (model_of model.now) }
    requires kinds { IsKinded model.now }
    ensures { IfOk result (λ o.
        o ≡ spec.not_delegatee (planned tables.now.tables plan.now) (model_of model.now) row.now
        name) }
{
    let Some(person) = tables.people().find(name) else {
        return Ok(None);
    };
    if may_delegate(alloc, tables, plan, model, row, person)? {
        Ok(None)
    } else {
        Ok(Some(Refusal::NotDelegatee(name)))
    }
}

// Whether the task may be delegated to this person, by its model.
fn may_delegate(
    alloc: Global,
    tables: &Tables,
    plan: &Plan,
    model: &Model,
    row: &Row,
    person: Person,
) -> Result<bool, Memory>
    requires plan { IsSoundPlan tables.now.tables plan.now }
    requires row { Fits tables.now.tables row.now }
    requires model { tables_of.model_of tables.now.tables row.now ≡ Some (model_of model.now) }
    requires kinds { IsKinded model.now }
    ensures { IfOk result (λ may.
        may ≡ spec.may_delegate (planned tables.now.tables plan.now) (model_of model.now) row.now
        person model.now.delegation) }
{
    match model.delegation {
        Delegation::Anybody => Ok(true),
        Delegation::Nobody => Ok(false),
        Delegation::PotentialOwners => Ok(row.potential_owners.contains(person)),
        Delegation::Other => match &model.delegatees {
            Some(assign) => {
                let delegatees = resolve(alloc, tables, plan, row, assign)?;
                Ok(delegatees.contains(person))
            }
            None => Ok(false),
        },
    }
}
