ghost use Rattle.std.specs.Prelude.{◌≡◌};
ghost use Rattle.ht_tree.specs.Activation as spec;

use crate::Row;
use ht_base::{Person, Persons, State};

/// The state that its potential owners give a task which nobody owns: one of them gets it, and several
/// may claim it (WS-HumanTask 1.1, 4.10.1).
pub fn state_by(owners: &Persons, state: State) -> State
    ensures { result ≡ spec.state_by owners.now state }
{
    match owners.as_slice() {
        [] => state,
        [_] => State::Reserved,
        _ => State::Ready,
    }
}

/// The owner that its potential owners give such a task: the only one of them.
pub fn owner_by(owners: &Persons) -> Option<Person>
    ensures { result ≡ spec.owner_by owners.now }
{
    match owners.as_slice() {
        [owner] => Some(*owner),
        _ => None,
    }
}

/// Gives a row this state and this owner. It waits no more.
pub(crate) fn activate_row(row: &mut Row, state: State, owner: Option<Person>)
    ensures { row.new ≡ spec.activated_to state owner row.old }
{
    row.state = state;
    row.owner = owner;
    row.waits = None;
}

/// The row with this state and this owner, which waits no more.
pub(crate) fn activated(row: Row, state: State, owner: Option<Person>) -> Row
    ensures { result ≡ spec.activated_to state owner row }
{
    let mut row = row;
    activate_row(&mut row, state, owner);
    row
}
