ghost use Rattle.std.specs.Prelude.{ℕ, ◌≡◌, false, IfOk, IsTrue, OnOk, option_map};
ghost use Rattle.ht_tree.specs.ListedBy.{KeepsParent};
ghost use Rattle.ht_tree.specs.Moves.{AddEach, AddsBy, LeadOn, StaysListed};
ghost use Rattle.ht_tree.specs.Plans.{IsPlanOf, planned};
ghost use Rattle.ht_tree.specs.declared.listed_by.ListedBy.TheVariants as by;

use crate::owner_moves::add_owners;
use crate::person_moves::{add_live, add_persons, stays};
use crate::{Plan, Row, Tables};
use ht_base::{Memory, TaskId};
use ht_index::Move;
use std::alloc::Global;

/// How the lists of tasks change: those by parent, those by person, the same of tasks that aren't final,
/// and those by actual owner.
#[derive(Drop)]
pub(crate) struct Moves {
    pub(crate) subs: Vec<Move>,
    pub(crate) persons: Vec<Move>,
    pub(crate) live: Vec<Move>,
    pub(crate) owners: Vec<Move>,
}

/// How they change with a plan.
pub(crate) fn moves_of(alloc: Global, tables: &Tables, plan: &Plan) -> Result<Moves, Memory>
    requires { IsPlanOf tables.now.tables plan.now }
    ensures { IfOk result (λ moves.
        LeadOn tables.now.tables.rows (planned tables.now.tables plan.now).rows moves) }
{
    let mut moves = Moves {
        subs: Vec::new(alloc),
        persons: Vec::new(alloc),
        live: Vec::new(alloc),
        owners: Vec::new(alloc),
    };
    for put in plan.puts() {
        let was = tables.row(put.task);
        let is = plan.row(tables, put.task);
        add_moves(put.task, was, is, &mut moves)?;
    }
    Ok(moves)
}

// The moves of a task whose row is changed. Most changes leave it in its lists.
fn add_moves(
    task: TaskId,
    was: Option<&Row>,
    is: Option<&Row>,
    moves: &mut Moves,
) -> Result<(), Memory>
    requires { KeepsParent (option_map (λ r. r.now) was) (option_map (λ r. r.now) is) }
    ensures { OnOk result (AddEach task (option_map (λ r. r.now) was.entry)
        (option_map (λ r. r.now) is.entry) moves.old moves.new) }
{
    if stays_listed(was, is) {
        return Ok(());
    }
    add_parent(task, was, is, &mut moves.subs)?;
    add_persons(task, was, is, &mut moves.persons)?;
    add_live(task, was, is, &mut moves.live)?;
    add_owners(task, was, is, &mut moves.owners)
}

fn stays_listed(was: Option<&Row>, is: Option<&Row>) -> bool
    requires { KeepsParent (option_map (λ r. r.now) was) (option_map (λ r. r.now) is) }
    ensures { IsTrue result → StaysListed (option_map (λ r. r.now) was.entry)
        (option_map (λ r. r.now) is.entry) }
{
    match was {
        Some(old) => match is {
            Some(new) => stays(old, new),
            None => false,
        },
        None => false,
    }
}

// A new sub task comes below its parent, and stays there.
fn add_parent(
    task: TaskId,
    was: Option<&Row>,
    is: Option<&Row>,
    moves: &mut Vec<Move>,
) -> Result<(), Memory>
    requires { KeepsParent (option_map (λ r. r.now) was) (option_map (λ r. r.now) is) }
    ensures { OnOk result (AddsBy by.Parent task (option_map (λ r. r.now) was.entry)
        (option_map (λ r. r.now) is.entry) moves.old.items moves.new.items) }
{
    if was.is_some() {
        return Ok(());
    }
    if let Some(row) = is {
        if let Some((parent, _)) = row.parent {
            moves.push(Move {
                key: parent.0,
                task,
                comes: true,
            })?;
        }
    }
    Ok(())
}
