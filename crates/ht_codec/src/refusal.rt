use ht_base::Memory as NoMemory;
use thiserror::Error;

/// Why bytes are no record: the first fault from left to right. Places count bytes, from 0.
#[derive(Clone, Copy, Debug, PartialEq, Eq, Error)]
pub enum CodecRefusal {
    /// A field needs more bytes than are left. The place is the length of all bytes.
    #[error("the record is cut at byte {0}")]
    Short(u64),
    /// A byte that says which record, operation, option, scalar or end follows has no meaning.
    #[error("byte {0} has no meaning")]
    Tag(u64),
    /// A value is out of its range, is no name or no text, stands twice or in another order. The
    /// place is that of the field, or of the list's entry.
    #[error("the value at byte {0} is out of its range")]
    Range(u64),
    /// The record ends here, and bytes follow.
    #[error("bytes follow the record at byte {0}")]
    Trailing(u64),
    /// There is not enough memory. It may be answered at any time.
    #[error("out of memory")]
    Memory,
}

impl From<NoMemory> for CodecRefusal {
    ghost use Rattle.std.specs.Prelude.{◌≡◌};
    ghost use Rattle.ht_codec.specs.declared.refusal.CodecRefusal.TheVariants.{Memory};

    ghost from_gives = { λ _ refusal. refusal ≡ Memory };

    fn from(_error: NoMemory) -> CodecRefusal {
        CodecRefusal::Memory
    }
}
