ghost use Rattle.std.specs.Prelude.{◌≡◌, true};
ghost use Rattle.ht_base.specs.State.{contains_state};
ghost use Rattle.ht_compose.specs.Downward as downward;
ghost use Rattle.ht_compose.specs.Reaching as spec;
ghost use Rattle.ht_compose.specs.Reaching.{changes, reached};
ghost use Rattle.ht_rules.specs.States.{opened};
ghost use Rattle.ht_tree.specs.Plans.{IsPlanOf, planned};
ghost use Rattle.ht_tree.specs.Soundness.{is_suspended};

use crate::above::is_below;
use crate::reaching::{Change, Reach};
use ht_base::{Op, State, TaskId};
use ht_rules::{After, Change as Moved, OPEN, SUSPENDED, next};
use ht_tree::{Plan, Row, Tables};

/// What comes of a row, as it would be after the plan, of what reaches those below the task.
pub(crate) fn change_of(
    tables: &Tables,
    plan: &Plan,
    task: TaskId,
    reach: Reach,
    row: &Row,
) -> Change
    requires { IsPlanOf tables.now.tables plan.now }
    ensures row { spec.changed result row.now
        ≡ reached reach (planned tables.now.tables plan.now).rows task.0 row.now }
    ensures touches { spec.touches result (row.now).state
        ≡ changes reach (planned tables.now.tables plan.now).rows task.0 row.now }
{
    if let Reach::Close(end) = reach {
        if row.task == task {
            return Change::End(end);
        }
    }
    if !is_below(tables, plan, row, task) {
        return Change::Nothing;
    }
    match reach {
        Reach::Close(end) => Change::End(end_below(end)),
        Reach::Skip => Change::End(State::Obsolete),
        Reach::Hold => Change::Hold,
        Reach::Free => Change::Free,
    }
}

/// Whether it changes a task in this state.
pub(crate) fn touches(change: Change, state: State) -> bool
    ensures { result ≡ spec.touches change state }
{
    match change {
        Change::Nothing => false,
        Change::End(_) => !state.is_final(),
        Change::Hold => OPEN.contains(state),
        Change::Free => SUSPENDED.contains(state),
    }
}

pub(crate) fn changed(row: Row, change: Change) -> Row
    requires { spec.touches change row.state ≡ true }
    ensures { result ≡ spec.changed change row }
{
    match change {
        Change::Nothing => row,
        Change::End(end) => closed(row, end),
        Change::Hold => held(row),
        Change::Free => freed(row),
    }
}

fn end_below(end: State) -> State
    ensures { result ≡ downward.end_below end }
{
    match end {
        State::Obsolete => State::Obsolete,
        _ => State::Exited,
    }
}

// The row of a task that ends in this state.
fn closed(row: Row, end: State) -> Row
    ensures { result ≡ downward.closed end row }
{
    let mut row = row;
    row.state = end;
    row.last_owner = row.owner;
    row.owner = None;
    row.waits = None;
    row.until = None;
    row
}

fn held(row: Row) -> Row
    requires { contains_state opened row.state ≡ true }
    ensures { result ≡ downward.held row }
{
    let mut row = row;
    row.state = moved_by(Op::Suspend, row.state);
    row
}

fn freed(row: Row) -> Row
    requires { is_suspended row.state ≡ true }
    ensures { result ≡ downward.freed row }
{
    let mut row = row;
    row.state = moved_by(Op::Resume, row.state);
    row.until = None;
    row
}

// The state to which an operation moves a task, by the table of changes.
fn moved_by(op: Op, state: State) -> State
    ensures { result ≡ downward.moved_by op state }
{
    match next(state, op) {
        Some(
            Moved {
                after: After::To(state),
                ..
            },
        ) => state,
        _ => state,
    }
}
