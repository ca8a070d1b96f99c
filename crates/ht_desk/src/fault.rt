use ht_base::Memory as NoMemory;
use ht_journal::JournalFault;
use ht_models::ModelsRefusal;
use ht_people::PeopleRefusal;
use thiserror::Error;

/// Why a desk isn't opened.
#[derive(Clone, Copy, Debug, PartialEq, Eq, Error)]
pub enum OpenFault {
    /// The models text is refused.
    #[error("the models text is refused")]
    Models(ModelsRefusal),
    /// The people text is refused.
    #[error("the people text is refused")]
    People(PeopleRefusal),
    /// The journal is damaged at this byte: its header (0), a frame, whose gate this is, or a body that
    /// is no record.
    #[error("the journal is damaged at {0}")]
    Damaged(u64),
    /// The record of this number isn't what the machine leaves at its place; or it is the first and no
    /// Opening, or an Opening and not the first.
    #[error("the record {0} doesn't belong there")]
    RecordRefused(u32),
    /// The journal is one of an office with other texts.
    #[error("the journal has other texts")]
    TextsDiffer,
    /// The disk failed. Its count of faults rose in that call.
    #[error("the disk of the journal failed")]
    Store,
    /// There is not enough memory.
    #[error("out of memory")]
    Memory,
}

impl From<NoMemory> for OpenFault {
    ghost use Rattle.std.specs.Prelude.{◌≡◌};
    ghost use Rattle.ht_desk.specs.declared.fault.OpenFault.TheVariants.{Memory};

    ghost from_gives = { λ _ fault. fault ≡ Memory };

    fn from(_error: NoMemory) -> OpenFault {
        OpenFault::Memory
    }
}

impl From<JournalFault> for OpenFault {
    ghost use Rattle.std.specs.Prelude.{◌≡◌};
    ghost use Rattle.ht_desk.specs.Faults.{fault_of};

    ghost from_gives = { λ fault told. told ≡ fault_of fault };

    fn from(fault: JournalFault) -> OpenFault {
        match fault {
            JournalFault::Damaged(at) => OpenFault::Damaged(at),
            JournalFault::Store => OpenFault::Store,
            JournalFault::Memory => OpenFault::Memory,
        }
    }
}
