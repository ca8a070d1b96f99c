use ht_toml::DocumentFault;
use std::alloc::{AllocError, AllocFailed};
use thiserror::Error;

/// Why a people text is refused: the first of these that holds anywhere, at its least place. A
/// place counts the persons first, from 0, and then the groups.
#[derive(Clone, Copy, Debug, PartialEq, Eq, Error)]
pub enum PeopleRefusal {
    #[error("not a TOML document")]
    Syntax,
    /// A key that is not known, one that is missing, or a value of another shape. Place 0 also
    /// where the document itself has another shape.
    #[error("entry {0} has another shape")]
    Field(usize),
    /// An earlier person has this person's name, an earlier group this group's, or a member stands
    /// twice in this group.
    #[error("entry {0} stands twice")]
    Twice(usize),
    /// A member of this group is no person and no group.
    #[error("entry {0} has an unknown member")]
    UnknownMember(usize),
    /// Memberships lead from this group back to itself.
    #[error("group {0} is its own member")]
    Cycle(usize),
    /// More than `MOST_PERSONS` persons, more than `MOST_GROUPS` groups, or a chain of more than
    /// `LONGEST_CHAIN` memberships.
    #[error("too many persons, groups or memberships in a chain")]
    Limit,
    #[error("out of memory")]
    Memory,
}

impl From<AllocError> for PeopleRefusal {
    ghost use Rattle.std.specs.Prelude.{◌≡◌};
    ghost use Rattle.ht_people.specs.declared.refusal.PeopleRefusal.TheVariants.{Memory};

    ghost from_gives = { λ _ refusal. refusal ≡ Memory };

    fn from(_error: AllocError) -> PeopleRefusal {
        PeopleRefusal::Memory
    }
}

impl<T: Drop> From<AllocFailed<T>> for PeopleRefusal {
    ghost use Rattle.std.specs.Prelude.{◌≡◌};
    ghost use Rattle.ht_people.specs.declared.refusal.PeopleRefusal.TheVariants.{Memory};

    ghost from_gives = { λ _ refusal. refusal ≡ Memory };

    fn from(_error: AllocFailed<T>) -> PeopleRefusal {
        PeopleRefusal::Memory
    }
}

impl From<DocumentFault> for PeopleRefusal {
    ghost use Rattle.std.specs.Prelude.{◌≡◌};
    ghost use Rattle.ht_people.specs.Refusals.{of_document};

    ghost from_gives = { λ fault refusal. refusal ≡ of_document fault };

    fn from(fault: DocumentFault) -> PeopleRefusal {
        match fault {
            DocumentFault::Syntax => PeopleRefusal::Syntax,
            DocumentFault::Memory => PeopleRefusal::Memory,
        }
    }
}
