ghost use Rattle.std.specs.Prelude.{◌≡◌};
ghost use Rattle.ht_api.specs.Lists as spec;

use ht_base::{Role, State, Which};

/// The role that a list goes by, or none where it goes by any. An operator has no list.
pub(crate) fn role_asked(text: &str) -> Option<Option<Role>>
    ensures { result ≡ spec.role_asked text.now }
{
    match text {
        "any" => Some(None),
        "initiator" => Some(Some(Role::Initiator)),
        "stakeholder" => Some(Some(Role::Stakeholder)),
        "potentialOwner" => Some(Some(Role::PotentialOwner)),
        "actualOwner" => Some(Some(Role::ActualOwner)),
        "administrator" => Some(Some(Role::Administrator)),
        _ => None,
    }
}

/// Which tasks a list has, by their state.
pub(crate) fn which_asked(text: &str) -> Option<Which>
    ensures { result ≡ spec.which_asked text.now }
{
    match text {
        "live" => Some(Which::Live),
        "all" => Some(Which::All),
        "Created" => Some(Which::Only(State::Created)),
        "Ready" => Some(Which::Only(State::Ready)),
        "Reserved" => Some(Which::Only(State::Reserved)),
        "InProgress" => Some(Which::Only(State::InProgress)),
        "SuspendedReady" => Some(Which::Only(State::SuspendedReady)),
        "SuspendedReserved" => Some(Which::Only(State::SuspendedReserved)),
        "SuspendedInProgress" => Some(Which::Only(State::SuspendedInProgress)),
        "Completed" => Some(Which::Only(State::Completed)),
        "Failed" => Some(Which::Only(State::Failed)),
        "Error" => Some(Which::Only(State::Error)),
        "Exited" => Some(Which::Only(State::Exited)),
        "Obsolete" => Some(Which::Only(State::Obsolete)),
        _ => None,
    }
}
