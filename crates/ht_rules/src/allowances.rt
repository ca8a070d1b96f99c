ghost use Rattle.std.specs.Prelude.{◌≡◌};
ghost use Rattle.ht_rules.specs.Allowances as spec;

use crate::sets::{
    ACTUAL_OWNER, ACTUAL_OWNER_OR_ADMIN, ADMIN, ANY_TASK_ROLE, CREATED, CREATED_OR_OPEN,
    EVERY_STATE, IN_PROGRESS, INITIATOR_ACTUAL_OWNER_OR_ADMIN, LIVE, OPEN, OPERATOR, OWNED,
    OWNED_SUSPENDED, POTENTIAL_OWNER, READY, RESERVED, RESERVED_OR_IN_PROGRESS, SUSPENDED,
    SUSPENDED_READY,
};
use ht_base::{Op, Roles, StateSet};

/// Roles, and the states in which each of them may do an operation.
#[derive(Clone, Copy)]
pub(crate) struct Allowance(pub(crate) Roles, pub(crate) StateSet);

/// Who may do an operation in which states (WS-HumanTask 1.1, 7.1.5 "Operation Authorizations";
/// narrowed). A create is nobody's alone and has no row.
pub(crate) fn allowances(op: Op) -> &'static [Allowance]
    ensures { result.now ≡ spec.allowances op }
{
    match op {
        Op::Claim => &[Allowance(POTENTIAL_OWNER, READY)],
        Op::Start => &[
            Allowance(POTENTIAL_OWNER, READY),
            Allowance(ACTUAL_OWNER, RESERVED),
        ],
        Op::Stop => &[Allowance(ACTUAL_OWNER_OR_ADMIN, IN_PROGRESS)],
        Op::Release => &[Allowance(ACTUAL_OWNER_OR_ADMIN, RESERVED_OR_IN_PROGRESS)],
        Op::Delegate | Op::Forward | Op::Suspend | Op::SuspendUntil => &[
            Allowance(POTENTIAL_OWNER, READY),
            Allowance(ACTUAL_OWNER, RESERVED_OR_IN_PROGRESS),
            Allowance(ADMIN, OPEN),
        ],
        Op::Resume => &[
            Allowance(POTENTIAL_OWNER, SUSPENDED_READY),
            Allowance(ACTUAL_OWNER, OWNED_SUSPENDED),
            Allowance(ADMIN, SUSPENDED),
        ],
        Op::Complete | Op::Fail | Op::SetOutput | Op::InstantiateSubTask => {
            &[Allowance(ACTUAL_OWNER, IN_PROGRESS)]
        }
        Op::Skip => &[Allowance(INITIATOR_ACTUAL_OWNER_OR_ADMIN, CREATED_OR_OPEN)],
        Op::SetPriority => &[Allowance(ACTUAL_OWNER, OWNED), Allowance(ADMIN, LIVE)],
        Op::Activate | Op::Nominate => &[Allowance(ADMIN, CREATED)],
        Op::SetRole => &[Allowance(ADMIN, LIVE)],
        Op::AddComment | Op::Get => &[Allowance(ANY_TASK_ROLE, EVERY_STATE)],
        Op::Exit | Op::Error => &[Allowance(OPERATOR, LIVE)],
        Op::Create => &[],
    }
}
