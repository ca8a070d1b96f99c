ghost use Rattle.std.specs.Prelude.{◌≡◌, ◌==◌, ℕ, IfOk, length};
ghost use Rattle.ht_base.specs.Persons.{AllBelow, has};
ghost use Rattle.ht_owner.specs.Effects as effects;
ghost use Rattle.ht_owner.specs.Effects.{is_forwarder};
ghost use Rattle.ht_owner.specs.Naming as spec;

use ht_base::{Memory, Name, Person, Persons, State};
use ht_people::{Directory, except, union};
use ht_tree::Row;
use std::alloc::Global;

/// The persons who have one of these names.
pub(crate) fn persons_named(
    alloc: Global,
    people: &Directory,
    names: &[Name],
) -> Result<Persons, Memory>
    ensures { IfOk result (λ persons. persons ≡ spec.persons_named people.now names.now) }
{
    let mut persons = Persons::new(alloc);
    for name in names {
        if let Some(person) = people.find(*name) {
            let named = Persons::alone(alloc, person)?;
            persons = union(alloc, &persons, &named)?;
        }
    }
    Ok(persons)
}

/// These persons and those who have one of the names.
pub(crate) fn with_named(
    alloc: Global,
    people: &Directory,
    persons: &Persons,
    names: &[Name],
) -> Result<Persons, Memory>
    requires { AllBelow (length people.now.persons) persons.now }
    ensures { IfOk result (λ all. all ≡ effects.with_named people.now persons.now names.now) }
{
    let named = persons_named(alloc, people, names)?;
    union(alloc, persons, &named)
}

/// These persons without those who have one of the names.
pub(crate) fn without_named(
    alloc: Global,
    people: &Directory,
    persons: &Persons,
    names: &[Name],
) -> Result<Persons, Memory>
    requires { AllBelow (length people.now.persons) persons.now }
    ensures { IfOk result (λ rest. rest ≡ effects.without_named people.now persons.now names.now) }
{
    let named = persons_named(alloc, people, names)?;
    except(alloc, persons, &named)
}

/// The potential owners of a task that is handed on to the persons who have one of these names.
pub(crate) fn forwarded(
    alloc: Global,
    people: &Directory,
    caller: Person,
    row: &Row,
    names: &[Name],
) -> Result<Persons, Memory>
    requires { AllBelow (length people.now.persons) row.now.potential_owners }
    ensures { IfOk result (λ all. all ≡ effects.forwarded people.now caller row.now names.now) }
{
    let forwarder = forwarder(alloc, caller, row)?;
    let rest = except(alloc, &row.potential_owners, &forwarder)?;
    let named = persons_named(alloc, people, names)?;
    union(alloc, &rest, &named)
}

// Who hands the task on: of a ready task the caller, and else its owner.
fn forwarder(alloc: Global, caller: Person, row: &Row) -> Result<Persons, Memory>
    ensures { IfOk result
        (λ persons. (p : ℕ) → has p persons ≡ is_forwarder caller row.now.state row.now.owner p) }
{
    if row.state == State::Ready {
        return Persons::alone(alloc, caller);
    }
    match row.owner {
        Some(owner) => Persons::alone(alloc, owner),
        None => Ok(Persons::new(alloc)),
    }
}
