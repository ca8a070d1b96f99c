ghost use Rattle.std.specs.Prelude.{◌≡◌, ◌<◌, true, is_some, length, not};
ghost use Rattle.ht_base.specs.Persons.{has};
ghost use Rattle.ht_base.specs.Role.{contains_role};
ghost use Rattle.ht_base.specs.State.{is_final};
ghost use Rattle.ht_lists.specs.Lists.{is_shown};
ghost use Rattle.ht_lists.specs.Offering as spec;
ghost use Rattle.ht_tree.specs.Roles.{roles_in};

use ht_base::{Person, Persons, Role, State, Which};
use ht_tree::{Row, Tables};

/// Whether more is true of a task in which the person has a role: what is asked. `place` is where the
/// person stood among those of the last task; it is a guess, that the answer doesn't hang on.
#[inline(always)]
pub(crate) fn is_asked(
    tables: &Tables,
    row: &Row,
    person: Person,
    role: Option<Role>,
    which: Which,
    place: &mut usize,
) -> bool
    requires { person < length tables.now.tables.people.persons }
    ensures { result ≡ spec.is_asked tables.now.tables person role which row.now }
{
    match role {
        Some(role) => is_shown(which, row.state) && has_role(tables, row, person, role, place),
        None => is_shown(which, row.state),
    }
}

// Whether the person has this one role in the task.
#[inline(always)]
fn has_role(tables: &Tables, row: &Row, person: Person, role: Role, place: &mut usize) -> bool
    requires { person < length tables.now.tables.people.persons }
    ensures { result ≡ contains_role (roles_in tables.now.tables row.now person) role }
{
    match role {
        Role::Initiator => row.initiator == person,
        Role::Stakeholder => is_among(&row.stakeholders, person, place),
        Role::PotentialOwner => is_among(&row.potential_owners, person, place),
        Role::ActualOwner => row.owner == Some(person),
        Role::Administrator => is_among(&row.administrators, person, place),
        Role::Operator => tables.people().operator(person),
    }
}

// Whether the person is one of them. Many tasks have the same persons, so the place is looked at first.
#[inline(always)]
fn is_among(persons: &Persons, person: Person, place: &mut usize) -> bool
    ensures { result ≡ has person persons.now }
{
    if stands_at(persons, person, *place) {
        return true;
    }
    match found(persons, person) {
        Some(other) => {
            *place = other;
            true
        }
        None => false,
    }
}

#[inline(always)]
fn stands_at(persons: &Persons, person: Person, place: usize) -> bool
    ensures { result ≡ true → has person persons.now ≡ true }
{
    match persons.as_slice().get(place) {
        Some(one) => *one == person,
        None => false,
    }
}

// The place of the person, if it is one of them.
#[inline(never)]
fn found(persons: &Persons, person: Person) -> Option<usize>
    ensures { is_some result ≡ has person persons.now }
{
    if persons.contains(person) {
        Some(persons.as_slice().binary_search(&person).unwrap_or(0))
    } else {
        None
    }
}

#[inline(always)]
fn is_shown(which: Which, state: State) -> bool
    ensures { result ≡ is_shown which state }
{
    match which {
        Which::Live => is_open(state),
        Which::All => true,
        Which::Only(one) => state == one,
    }
}

// Whether a task in it hasn't ended. As these states stand first, one comparison tells them.
#[inline(always)]
fn is_open(state: State) -> bool
    ensures { result ≡ not (is_final state) }
{
    matches!(
        state,
        State::Created
            | State::Ready
            | State::Reserved
            | State::InProgress
            | State::SuspendedReady
            | State::SuspendedReserved
            | State::SuspendedInProgress
    )
}

/// Whether the role is the one that no task gives.
pub(crate) fn is_operator(role: Option<Role>) -> bool
    ensures { result ≡ spec.is_operator role }
{
    matches!(role, Some(Role::Operator))
}

/// Whether the role is the one whose tasks are listed by themselves.
pub(crate) fn is_owner(role: Option<Role>) -> bool
    ensures { result ≡ spec.is_owner role }
{
    matches!(role, Some(Role::ActualOwner))
}

/// What is still asked of a task that isn't final.
pub(crate) fn asked_of_live(which: Which) -> Which
    ensures { result ≡ spec.asked_of_live which }
{
    match which {
        Which::Live => Which::All,
        Which::All => Which::All,
        Which::Only(one) => Which::Only(one),
    }
}

/// Whether no task that is final is asked for.
pub(crate) fn is_live(which: Which) -> bool
    ensures { result ≡ spec.is_live which }
{
    match which {
        Which::Live => true,
        Which::All => false,
        Which::Only(one) => !one.is_final(),
    }
}
