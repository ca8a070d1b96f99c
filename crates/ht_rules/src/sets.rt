ghost use Rattle.std.specs.Prelude.{◌≡◌};
ghost use Rattle.ht_rules.specs.Sets as spec;

use ht_base::{Roles, StateSet};

pub(crate) const POTENTIAL_OWNER: Roles = Roles {
    potential_owner: true,
    ..Roles::NONE
};

pub(crate) const ACTUAL_OWNER: Roles = Roles {
    actual_owner: true,
    ..Roles::NONE
};

/// Stakeholders have the rights of business administrators.
pub(crate) const ADMIN: Roles = Roles {
    stakeholder: true,
    administrator: true,
    ..Roles::NONE
};

pub(crate) const ACTUAL_OWNER_OR_ADMIN: Roles = Roles {
    actual_owner: true,
    ..ADMIN
};

pub(crate) const INITIATOR_ACTUAL_OWNER_OR_ADMIN: Roles = Roles {
    initiator: true,
    ..ACTUAL_OWNER_OR_ADMIN
};

pub(crate) const OPERATOR: Roles = Roles {
    operator: true,
    ..Roles::NONE
};

/// Every role in the task itself, so all but the operator.
pub(crate) const ANY_TASK_ROLE: Roles = Roles {
    potential_owner: true,
    ..INITIATOR_ACTUAL_OWNER_OR_ADMIN
};

pub(crate) const CREATED: StateSet = StateSet {
    created: true,
    ..StateSet::NONE
};

pub(crate) const READY: StateSet = StateSet {
    ready: true,
    ..StateSet::NONE
};

pub(crate) const RESERVED: StateSet = StateSet {
    reserved: true,
    ..StateSet::NONE
};

pub(crate) const IN_PROGRESS: StateSet = StateSet {
    in_progress: true,
    ..StateSet::NONE
};

pub(crate) const RESERVED_OR_IN_PROGRESS: StateSet = StateSet {
    in_progress: true,
    ..RESERVED
};

/// The states of a task that is ready or worked on.
pub const OPEN: StateSet = StateSet {
    ready: true,
    ..RESERVED_OR_IN_PROGRESS
};

pub(crate) const CREATED_OR_OPEN: StateSet = StateSet {
    created: true,
    ..OPEN
};

pub(crate) const SUSPENDED_READY: StateSet = StateSet {
    suspended_ready: true,
    ..StateSet::NONE
};

pub(crate) const SUSPENDED_RESERVED: StateSet = StateSet {
    suspended_reserved: true,
    ..StateSet::NONE
};

pub(crate) const SUSPENDED_IN_PROGRESS: StateSet = StateSet {
    suspended_in_progress: true,
    ..StateSet::NONE
};

pub(crate) const OWNED_SUSPENDED: StateSet = StateSet {
    suspended_reserved: true,
    ..SUSPENDED_IN_PROGRESS
};

/// The states of a task that is suspended.
pub const SUSPENDED: StateSet = StateSet {
    suspended_ready: true,
    ..OWNED_SUSPENDED
};

pub(crate) const OWNED: StateSet = StateSet {
    reserved: true,
    in_progress: true,
    ..OWNED_SUSPENDED
};

/// Every state that is not final.
pub(crate) const LIVE: StateSet = StateSet {
    suspended_ready: true,
    suspended_reserved: true,
    suspended_in_progress: true,
    ..CREATED_OR_OPEN
};

pub(crate) const EVERY_STATE: StateSet = StateSet {
    completed: true,
    failed: true,
    error: true,
    exited: true,
    obsolete: true,
    ..LIVE
};

/// The roles of both sets.
pub(crate) fn join_roles(a: &Roles, b: &Roles) -> Roles
    ensures { result ≡ spec.join_roles a.now b.now }
{
    Roles {
        initiator: a.initiator | b.initiator,
        stakeholder: a.stakeholder | b.stakeholder,
        potential_owner: a.potential_owner | b.potential_owner,
        actual_owner: a.actual_owner | b.actual_owner,
        administrator: a.administrator | b.administrator,
        operator: a.operator | b.operator,
    }
}

/// Whether a role is in both sets.
pub(crate) fn share_role(a: &Roles, b: &Roles) -> bool
    ensures { result ≡ spec.share_role a.now b.now }
{
    a.initiator & b.initiator
        | a.stakeholder & b.stakeholder
        | a.potential_owner & b.potential_owner
        | a.actual_owner & b.actual_owner
        | a.administrator & b.administrator
        | a.operator & b.operator
}

/// The states of both sets.
pub(crate) fn join_states(a: &StateSet, b: &StateSet) -> StateSet
    ensures { result ≡ spec.join_states a.now b.now }
{
    StateSet {
        created: a.created | b.created,
        ready: a.ready | b.ready,
        reserved: a.reserved | b.reserved,
        in_progress: a.in_progress | b.in_progress,
        suspended_ready: a.suspended_ready | b.suspended_ready,
        suspended_reserved: a.suspended_reserved | b.suspended_reserved,
        suspended_in_progress: a.suspended_in_progress | b.suspended_in_progress,
        completed: a.completed | b.completed,
        failed: a.failed | b.failed,
        error: a.error | b.error,
        exited: a.exited | b.exited,
        obsolete: a.obsolete | b.obsolete,
    }
}
