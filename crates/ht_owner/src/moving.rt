ghost use Rattle.std.specs.Prelude.{◌≡◌};
ghost use Rattle.ht_owner.specs.Moving as spec;

use ht_base::{Op, Person, Persons, State};
use ht_rules::{After, Change, OwnerAfter, SUSPENDED, next};
use ht_tree::{Row, owner_by, state_by};

const UNCHANGED: Change = Change {
    after: After::Same,
    owner: OwnerAfter::Kept,
};

/// Moves the row as an operation does by the table of changes: one that the caller does, and that names
/// this person.
pub(crate) fn move_by(row: &mut Row, op: Op, caller: Person, named: Person)
    ensures { row.new ≡ spec.moved op caller named row.old }
{
    let change = next(row.state, op).unwrap_or(UNCHANGED);
    let owners = &row.potential_owners;
    let state = state_after(change.after, owners, row.state);
    let owner = owner_after(change.owner, owners, row.owner, caller, named);
    row.state = state;
    row.owner = owner;
    if state != State::Created {
        row.waits = None;
    }
    if !SUSPENDED.contains(state) {
        row.until = None;
    }
}

/// The state in which an operation ends a task that is in this one, if it does.
pub(crate) fn ending(state: State, op: Op) -> Option<State>
    ensures { result ≡ spec.ending state op }
{
    let change = next(state, op).unwrap_or(UNCHANGED);
    match change.after {
        After::To(end) if end.is_final() => Some(end),
        _ => None,
    }
}

fn state_after(after: After, owners: &Persons, state: State) -> State
    ensures { result ≡ spec.state_after after owners.now state }
{
    match after {
        After::To(state) => state,
        After::Same => state,
        After::ByPeople => state_by(owners, state),
    }
}

fn owner_after(
    after: OwnerAfter,
    owners: &Persons,
    owner: Option<Person>,
    caller: Person,
    named: Person,
) -> Option<Person>
    ensures { result ≡ spec.owner_after after owners.now owner caller named }
{
    match after {
        OwnerAfter::Kept => owner,
        OwnerAfter::Cleared => None,
        OwnerAfter::Caller => Some(caller),
        OwnerAfter::Named => Some(named),
        OwnerAfter::ByPeople => owner_by(owners),
    }
}
