ghost use Rattle.std.specs.Prelude.{◌≡◌};
ghost use Rattle.ht_rules.specs.Judging as spec;

use crate::allowances::allowances;
use crate::sets::{join_roles, join_states, share_role};
use ht_base::{Op, Roles, State, StateSet};

/// Whether an operation may be done.
#[derive(Clone, Copy)]
pub enum Verdict {
    Yes,
    /// The caller has none of these roles, which are all that may do it in some state.
    NeedsRole(Roles),
    /// The task is in none of these states, which are all in which the caller may do it.
    WrongState(StateSet),
}

/// Whether who has these roles in a task may do an operation with it in this state (WS-HumanTask 1.1,
/// 7.1.5 "Operation Authorizations"). The role is tested before the state.
pub fn may(op: Op, state: State, roles: &Roles) -> Verdict
    ensures { result ≡ spec.verdict op state roles.now }
{
    let mut has_role = false;
    let mut needed = Roles::NONE;
    let mut allowed = StateSet::NONE;
    for allowance in allowances(op) {
        needed = join_roles(&needed, &allowance.0);
        if share_role(&allowance.0, roles) {
            has_role = true;
            allowed = join_states(&allowed, &allowance.1);
        }
    }
    if !has_role {
        Verdict::NeedsRole(needed)
    } else if allowed.contains(state) {
        Verdict::Yes
    } else {
        Verdict::WrongState(allowed)
    }
}
