use ht_outside::Failed;
use std::alloc::{AllocError, AllocFailed};
use thiserror::Error;

/// Why a journal wasn't opened, or a body not read.
#[derive(Clone, Copy, Debug, PartialEq, Eq, Error)]
pub enum JournalFault {
    /// The file is damaged: another header (0), or the place of the first open gate with no whole
    /// frame behind it.
    #[error("the journal is damaged at {0}")]
    Damaged(u64),
    /// The disk failed. Its count of faults rose in that call.
    #[error("the disk of the journal failed")]
    Store,
    /// There is not enough memory.
    #[error("out of memory")]
    Memory,
}

/// Why a body wasn't appended.
#[derive(Clone, Copy, Debug, PartialEq, Eq, Error)]
pub enum AppendRefusal {
    /// The disk failed. The body isn't there, or it is in doubt.
    #[error("the disk of the journal failed")]
    Store,
    /// The body has more than 1,048,576 bytes.
    #[error("the body is too long")]
    TooLong,
    /// With the body the journal would pass its limit. It has this many bytes.
    #[error("the journal is full at {0} bytes")]
    Full(u64),
}

/// What a doubt turned out to be.
#[derive(Clone, Copy, Debug, PartialEq, Eq)]
pub enum Settled {
    /// The body is there.
    Kept,
    /// It isn't.
    Dropped,
    /// The disk failed, so the doubt stays.
    Store,
}

impl From<Failed> for AppendRefusal {
    ghost use Rattle.std.specs.Prelude.{◌≡◌};
    ghost use Rattle.ht_journal.specs.declared.faults.AppendRefusal.TheVariants.{Store};

    ghost from_gives = { λ _ refusal. refusal ≡ Store };

    fn from(_failed: Failed) -> AppendRefusal {
        AppendRefusal::Store
    }
}

impl From<Failed> for JournalFault {
    ghost use Rattle.std.specs.Prelude.{◌≡◌};
    ghost use Rattle.ht_journal.specs.declared.faults.JournalFault.TheVariants.{Store};

    ghost from_gives = { λ _ fault. fault ≡ Store };

    fn from(_failed: Failed) -> JournalFault {
        JournalFault::Store
    }
}

impl From<AllocError> for JournalFault {
    ghost use Rattle.std.specs.Prelude.{◌≡◌};
    ghost use Rattle.ht_journal.specs.declared.faults.JournalFault.TheVariants.{Memory};

    ghost from_gives = { λ _ fault. fault ≡ Memory };

    fn from(_error: AllocError) -> JournalFault {
        JournalFault::Memory
    }
}

impl<T: Drop> From<AllocFailed<T>> for JournalFault {
    ghost use Rattle.std.specs.Prelude.{◌≡◌};
    ghost use Rattle.ht_journal.specs.declared.faults.JournalFault.TheVariants.{Memory};

    ghost from_gives = { λ _ fault. fault ≡ Memory };

    fn from(_error: AllocFailed<T>) -> JournalFault {
        JournalFault::Memory
    }
}
