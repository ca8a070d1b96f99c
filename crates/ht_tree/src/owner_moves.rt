ghost use Rattle.std.specs.Prelude.{ℕ, ◌≡◌, ◌==◌, OnOk, option_map};
ghost use Rattle.ht_tree.specs.ListedBy.{AddsOf, is_person, stands_under};
ghost use Rattle.ht_tree.specs.Moves.{AddsBy};
ghost use Rattle.ht_tree.specs.declared.listed_by.ListedBy.TheVariants as by;

use crate::Row;
use ht_base::{Memory, Person, TaskId};
use ht_index::Move;

/// The moves of a task between the lists of actual owners, as it was owned and as it is.
pub(crate) fn add_owners(
    task: TaskId,
    was: Option<&Row>,
    is: Option<&Row>,
    moves: &mut Vec<Move>,
) -> Result<(), Memory>
    ensures { OnOk result (AddsBy by.Owner task (option_map (λ r. r.now) was.entry)
        (option_map (λ r. r.now) is.entry) moves.old.items moves.new.items) }
{
    add_owner(task, is, was, true, moves)?;
    add_owner(task, was, is, false, moves)
}

fn owner_of(row: Option<&Row>) -> Option<Person>
    ensures { (key : ℕ) → stands_under by.Owner key (option_map (λ r. r.now) row.entry)
        ≡ is_person key result }
{
    match row {
        Some(row) => row.owner,
        None => None,
    }
}

// The owner of the row, but for one who owns the other.
fn add_owner(
    task: TaskId,
    row: Option<&Row>,
    other: Option<&Row>,
    comes: bool,
    moves: &mut Vec<Move>,
) -> Result<(), Memory>
    ensures { OnOk result (AddsOf task comes
        (λ key. stands_under by.Owner key (option_map (λ r. r.now) row.entry))
        (λ key. stands_under by.Owner key (option_map (λ r. r.now) other.entry))
        moves.old.items moves.new.items) }
{
    match owner_of(row) {
        Some(person) => add_unless(task, person, owner_of(other), comes, moves),
        None => Ok(()),
    }
}

fn add_unless(
    task: TaskId,
    person: Person,
    other: Option<Person>,
    comes: bool,
    moves: &mut Vec<Move>,
) -> Result<(), Memory>
    ensures { OnOk result (AddsOf task comes (λ key. person == key)
        (λ key. is_person key other) moves.old.items moves.new.items) }
{
    if other != Some(person) {
        moves.push(Move {
            key: person.0,
            task,
            comes,
        })?;
    }
    Ok(())
}
