ghost use Rattle.std.specs.Prelude.{◌≡◌};
ghost use Rattle.ht_rules.specs.Changes as spec;

use crate::sets::{
    CREATED, CREATED_OR_OPEN, EVERY_STATE, IN_PROGRESS, LIVE, OPEN, READY, RESERVED,
    RESERVED_OR_IN_PROGRESS, SUSPENDED_IN_PROGRESS, SUSPENDED_READY, SUSPENDED_RESERVED,
};
use ht_base::{Op, State, StateSet};

/// The state after an operation.
#[derive(Clone, Copy)]
pub enum After {
    To(State),
    /// As the task's people make it: reserved for one potential owner, ready for several.
    ByPeople,
    Same,
}

/// The actual owner after an operation.
#[derive(Clone, Copy)]
pub enum OwnerAfter {
    Kept,
    Cleared,
    /// Who calls.
    Caller,
    /// Whom the call names.
    Named,
    /// The one potential owner, if there is one alone.
    ByPeople,
}

/// What an operation changes of a task's state and of its owner.
#[derive(Clone, Copy)]
pub struct Change {
    pub after: After,
    pub owner: OwnerAfter,
}

/// A change that is made from these states.
#[derive(Clone, Copy)]
pub(crate) struct Step(pub(crate) StateSet, pub(crate) After, pub(crate) OwnerAfter);

/// What an operation changes of a task in this state. None where nobody may do it then.
pub fn next(state: State, op: Op) -> Option<Change>
    ensures { result ≡ spec.next state op }
{
    for step in changes(op) {
        if step.0.contains(state) {
            let Step(_, after, owner) = *step;
            return Some(Change { after, owner });
        }
    }
    None
}

/// What an operation changes, by the states before (WS-HumanTask 1.1, 4.10 "Human task behavior and
/// state transitions"; narrowed). A create has no task to change.
fn changes(op: Op) -> &'static [Step]
    ensures { result.now ≡ spec.changes op }
{
    match op {
        Op::Claim => &[Step(READY, After::To(State::Reserved), OwnerAfter::Caller)],
        Op::Start => &[
            Step(READY, After::To(State::InProgress), OwnerAfter::Caller),
            Step(RESERVED, After::To(State::InProgress), OwnerAfter::Kept),
        ],
        Op::Stop => &[Step(IN_PROGRESS, After::To(State::Reserved), OwnerAfter::Kept)],
        Op::Release => &[Step(
            RESERVED_OR_IN_PROGRESS,
            After::To(State::Ready),
            OwnerAfter::Cleared,
        )],
        Op::Delegate => &[Step(OPEN, After::To(State::Reserved), OwnerAfter::Named)],
        Op::Forward => &[Step(OPEN, After::To(State::Ready), OwnerAfter::Cleared)],
        Op::Suspend | Op::SuspendUntil => &[
            Step(READY, After::To(State::SuspendedReady), OwnerAfter::Kept),
            Step(
                RESERVED,
                After::To(State::SuspendedReserved),
                OwnerAfter::Kept,
            ),
            Step(
                IN_PROGRESS,
                After::To(State::SuspendedInProgress),
                OwnerAfter::Kept,
            ),
        ],
        Op::Resume => &[
            Step(SUSPENDED_READY, After::To(State::Ready), OwnerAfter::Kept),
            Step(
                SUSPENDED_RESERVED,
                After::To(State::Reserved),
                OwnerAfter::Kept,
            ),
            Step(
                SUSPENDED_IN_PROGRESS,
                After::To(State::InProgress),
                OwnerAfter::Kept,
            ),
        ],
        Op::Complete => &[Step(
            IN_PROGRESS,
            After::To(State::Completed),
            OwnerAfter::Cleared,
        )],
        Op::Fail => &[Step(IN_PROGRESS, After::To(State::Failed), OwnerAfter::Cleared)],
        Op::Skip => &[Step(
            CREATED_OR_OPEN,
            After::To(State::Obsolete),
            OwnerAfter::Cleared,
        )],
        Op::Exit => &[Step(LIVE, After::To(State::Exited), OwnerAfter::Cleared)],
        Op::Error => &[Step(LIVE, After::To(State::Error), OwnerAfter::Cleared)],
        Op::Activate | Op::Nominate => &[Step(CREATED, After::ByPeople, OwnerAfter::ByPeople)],
        Op::SetOutput | Op::InstantiateSubTask => {
            &[Step(IN_PROGRESS, After::Same, OwnerAfter::Kept)]
        }
        Op::SetPriority | Op::SetRole => &[Step(LIVE, After::Same, OwnerAfter::Kept)],
        Op::AddComment | Op::Get => &[Step(EVERY_STATE, After::Same, OwnerAfter::Kept)],
        Op::Create => &[],
    }
}
