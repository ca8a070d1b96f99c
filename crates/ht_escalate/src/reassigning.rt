ghost use Rattle.std.specs.Prelude.{◌≡◌, ◌&&◌, IfOk, IfSome, List, false, filter, map, not};
ghost use Rattle.ht_base.specs.Persons.{Ascends, has};
ghost use Rattle.ht_escalate.specs.Escalating as spec;
ghost use Rattle.ht_escalate.specs.Seeing as seeing;
ghost use Rattle.ht_escalate.specs.Seeing.{IsSeen, env_of, kinds_of, people_of, row_of, sight_of};
ghost use Rattle.ht_expr.specs.AssignmentKinds.{Assigns};
ghost use Rattle.ht_expr.specs.Assignments.{is_individual};
ghost use Rattle.ht_expr.specs.Shown as tree;
ghost use Rattle.ht_models.specs.Kinded.{Ends};
ghost use Rattle.ht_models.specs.Shown as shown;

use crate::seen::Seen;
use crate::triggering::is_triggered;
use ht_base::{Memory, Persons, State};
use ht_expr::Assign;
use ht_finding::without;
use ht_models::Deadline;
use ht_tree::{Row, resolve_seen};
use ht_value::Env;
use std::alloc::Global;

/// To whom a task is given, and whether by a group.
#[derive(Drop)]
pub struct Owners {
    pub persons: Persons,
    pub by_group: bool,
}

/// To whom a deadline gives its task. None where no reassignment is triggered.
pub(crate) fn new_owners(
    alloc: Global,
    seen: &Seen<'_>,
    deadline: &Deadline,
    view: &mut Option<Env>,
) -> Result<Option<Owners>, Memory>
    requires seen { IsSeen seen.now }
    requires kinds { Ends (kinds_of seen.now) deadline.now }
    requires view { IfSome view.old (λ e. e ≡ env_of seen.now) }
    ensures { IfOk result
        (λ owners. owners ≡ seeing.new_owners seen.now (shown.deadline_of deadline.now)) }
{
    for escalation in &deadline.escalations {
        if let Some(assign) = &escalation.reassign {
            if is_triggered(alloc, seen, escalation, view)? {
                return Ok(Some(owners_by(alloc, seen, assign, view)?));
            }
        }
    }
    Ok(None)
}

// To whom an assignment of the model gives the task, which isn't one of the excluded owners.
fn owners_by(
    alloc: Global,
    seen: &Seen<'_>,
    assign: &Assign,
    view: &mut Option<Env>,
) -> Result<Owners, Memory>
    requires seen { IsSeen seen.now }
    requires kinds { Assigns (kinds_of seen.now) assign.now }
    requires view { IfSome view.old (λ e. e ≡ env_of seen.now) }
    ensures { IfOk result (λ owners.
        owners ≡ seeing.owners_by (people_of seen.now) (sight_of seen.now) (row_of seen.now)
        (tree.shown assign.now)) }
{
    let found = resolve_seen(alloc, seen.tables, seen.plan, seen.row, assign, view)?;
    Ok(Owners {
        persons: without(alloc, found, &seen.row.excluded_owners)?,
        by_group: !assign.individual(),
    })
}

/// The row once the deadline at a place is taken and its task is given to these, where there are any.
pub(crate) fn taken_row(row: Row, owners: Option<Owners>, place: u32) -> Result<Row, Memory>
    requires ascend { Ascends row.taken }
    requires absent { has place row.taken ≡ false }
    ensures { IfOk result (λ after.
        after ≡ record (seeing.given_all row owners) { taken = spec.taken_with place row.taken }) }
{
    let mut row = row;
    row.taken.put(place)?;
    match owners {
        Some(owners) => Ok(given_to(row, owners)),
        None => Ok(row),
    }
}

// Nobody else than its owners has the task where there are none of these.
fn given_to(row: Row, owners: Owners) -> Row
    ensures { result ≡ spec.given_to row owners.by_group owners.persons }
{
    if owners.persons.as_slice().is_empty() {
        return row;
    }
    let mut row = row;
    row.state = state_then(row.state);
    row.owner = None;
    row.potential_owners = owners.persons;
    row.by_group = owners.by_group;
    row
}

fn state_then(state: State) -> State
    ensures { result ≡ spec.state_then state }
{
    match state {
        State::Reserved | State::InProgress => State::Ready,
        State::SuspendedReserved | State::SuspendedInProgress => State::SuspendedReady,
        state => state,
    }
}
