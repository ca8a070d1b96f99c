ghost use Rattle.std.specs.Prelude.{ℕ, ◌≡◌, ◌==◌, ◌&&◌, not, false, true, IsTrue, OnOk, Some, option_map};
ghost use Rattle.std.specs.Option.{option_map_or};
ghost use Rattle.ht_base.specs.Persons.{has};
ghost use Rattle.ht_tree.specs.ListedBy as spec;
ghost use Rattle.ht_tree.specs.Moves.{AddsBy, StaysListed};
ghost use Rattle.ht_tree.specs.ListedBy.{AddsOf, HaveSameLists, stands_under};
ghost use Rattle.ht_tree.specs.declared.listed_by.ListedBy.TheVariants as by;

use crate::Row;
use ht_base::{Memory, Person, Persons, TaskId};
use ht_index::Move;

/// The moves of a task between the lists of persons, as they had a role in it and as they have.
pub(crate) fn add_persons(
    task: TaskId,
    was: Option<&Row>,
    is: Option<&Row>,
    moves: &mut Vec<Move>,
) -> Result<(), Memory>
    ensures { OnOk result (AddsBy by.Person task (option_map (λ r. r.now) was.entry)
        (option_map (λ r. r.now) is.entry) moves.old.items moves.new.items) }
{
    add_those_of(task, is, was, true, moves)?;
    add_those_of(task, was, is, false, moves)
}

/// Those between the lists of tasks that aren't final.
pub(crate) fn add_live(
    task: TaskId,
    was: Option<&Row>,
    is: Option<&Row>,
    moves: &mut Vec<Move>,
) -> Result<(), Memory>
    ensures { OnOk result (AddsBy by.Live task (option_map (λ r. r.now) was.entry)
        (option_map (λ r. r.now) is.entry) moves.old.items moves.new.items) }
{
    add_persons(task, live(was), live(is), moves)
}

// The row, where it isn't final.
fn live(row: Option<&Row>) -> Option<&Row>
    ensures { (key : ℕ) → stands_under by.Person key (option_map (λ r. r.now) result)
        ≡ stands_under by.Live key (option_map (λ r. r.now) row.entry) }
{
    match row {
        Some(row) => {
            if row.state.is_final() {
                None
            } else {
                Some(row)
            }
        }
        None => None,
    }
}

fn add_those_of(
    task: TaskId,
    row: Option<&Row>,
    other: Option<&Row>,
    comes: bool,
    moves: &mut Vec<Move>,
) -> Result<(), Memory>
    ensures { OnOk result (AddsOf task comes
        (λ key. stands_under by.Person key (option_map (λ r. r.now) row.entry))
        (λ key. stands_under by.Person key (option_map (λ r. r.now) other.entry))
        moves.old.items moves.new.items) }
{
    match row {
        Some(row) => add_all_of(task, row, other, comes, moves),
        None => Ok(()),
    }
}

// All persons with a role in the row, but for those who have one in the other.
fn add_all_of(
    task: TaskId,
    row: &Row,
    other: Option<&Row>,
    comes: bool,
    moves: &mut Vec<Move>,
) -> Result<(), Memory>
    ensures { OnOk result (AddsOf task comes (λ key. spec.has_task_role key row.now)
        (λ key. stands_under by.Person key (option_map (λ r. r.now) other.entry))
        moves.old.items moves.new.items) }
{
    add_listed(task, row, other, comes, moves)?;
    add_owner(task, row.owner, other, comes, moves)
}

fn add_listed(
    task: TaskId,
    row: &Row,
    other: Option<&Row>,
    comes: bool,
    moves: &mut Vec<Move>,
) -> Result<(), Memory>
    ensures { OnOk result (AddsOf task comes (λ key. spec.is_in_lists key row.now)
        (λ key. stands_under by.Person key (option_map (λ r. r.now) other.entry))
        moves.old.items moves.new.items) }
{
    if are_in_other(row, other) {
        return Ok(());
    }
    moves.reserve(row.potential_owners.as_slice().len() + 1)?;
    add(task, row.initiator, other, comes, moves)?;
    add_each(task, &row.stakeholders, other, comes, moves)?;
    add_each(task, &row.potential_owners, other, comes, moves)?;
    add_each(task, &row.administrators, other, comes, moves)
}

fn add_owner(
    task: TaskId,
    owner: Option<Person>,
    other: Option<&Row>,
    comes: bool,
    moves: &mut Vec<Move>,
) -> Result<(), Memory>
    ensures { OnOk result (AddsOf task comes (λ key. spec.is_person key owner)
        (λ key. stands_under by.Person key (option_map (λ r. r.now) other.entry))
        moves.old.items moves.new.items) }
{
    match owner {
        Some(owner) => add(task, owner, other, comes, moves),
        None => Ok(()),
    }
}

// Whether those of the row's lists have a role in the other: most changes of a task leave the lists.
#[tactic(auto, using(crate::proofs::Moving::same_lists))]
fn are_in_other(row: &Row, other: Option<&Row>) -> bool
    ensures { IsTrue result → (key : ℕ)
        → spec.is_in_lists key row.now ≡ true
        → stands_under by.Person key (option_map (λ r. r.now) other.entry) ≡ true }
{
    match other {
        Some(other) => have_same_lists(row, other),
        None => false,
    }
}

fn have_same_lists(row: &Row, other: &Row) -> bool
    ensures { IsTrue result → HaveSameLists row.now other.now }
{
    if row.initiator != other.initiator {
        return false;
    }
    if !are_same(&row.stakeholders, &other.stakeholders) {
        return false;
    }
    if !are_same(&row.administrators, &other.administrators) {
        return false;
    }
    are_same(&row.potential_owners, &other.potential_owners)
}

fn are_same(persons: &Persons, others: &Persons) -> bool
    ensures { IsTrue result → persons.now ≡ others.now }
{
    persons.as_slice() == others.as_slice()
}

fn add_each(
    task: TaskId,
    persons: &Persons,
    other: Option<&Row>,
    comes: bool,
    moves: &mut Vec<Move>,
) -> Result<(), Memory>
    ensures { OnOk result (AddsOf task comes (λ key. has key persons.now)
        (λ key. stands_under by.Person key (option_map (λ r. r.now) other.entry))
        moves.old.items moves.new.items) }
{
    for person in persons.as_slice() {
        add(task, *person, other, comes, moves)?;
    }
    Ok(())
}

fn add(
    task: TaskId,
    person: Person,
    other: Option<&Row>,
    comes: bool,
    moves: &mut Vec<Move>,
) -> Result<(), Memory>
    ensures { OnOk result (AddsOf task comes (λ key. person == key)
        (λ key. stands_under by.Person key (option_map (λ r. r.now) other.entry))
        moves.old.items moves.new.items) }
{
    if !has_role_in(other, person) {
        moves.push(Move {
            key: person.0,
            task,
            comes,
        })?;
    }
    Ok(())
}

fn has_role_in(row: Option<&Row>, person: Person) -> bool
    ensures { result ≡ stands_under by.Person person (option_map (λ r. r.now) row.entry) }
{
    match row {
        Some(row) => has_task_role(row, person),
        None => false,
    }
}

/// Whether a task that keeps its parent stays in all its lists.
#[tactic(auto, using(crate::proofs::Staying::stays_under))]
pub(crate) fn stays(old: &Row, new: &Row) -> bool
    requires { new.now.parent ≡ old.now.parent }
    ensures { IsTrue result → StaysListed (Some old.now) (Some new.now) }
{
    if old.state.is_final() != new.state.is_final() {
        return false;
    }
    old.owner == new.owner && have_same_lists(old, new)
}

/// Whether a person is the initiator, a stakeholder, a potential owner, the actual owner or a business
/// administrator of a task (WS-HumanTask 1.1, 3.1).
pub(crate) fn has_task_role(row: &Row, person: Person) -> bool
    ensures { result ≡ spec.has_task_role person row.now }
{
    row.initiator == person
        || row.stakeholders.contains(person)
        || row.potential_owners.contains(person)
        || row.owner == Some(person)
        || row.administrators.contains(person)
}
