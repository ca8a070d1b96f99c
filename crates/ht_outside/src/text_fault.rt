use ht_base::Memory;
use thiserror::Error;

/// Why a read gave no text.
#[derive(Clone, Copy, Debug, PartialEq, Eq, Error)]
pub enum TextFault {
    /// The outside failed. The object's count of faults rose in that call.
    #[error("the outside failed")]
    Failed,
    /// The text has more bytes than the limit.
    #[error("the text is too long")]
    TooLong,
    /// There is not enough memory for the text.
    #[error("out of memory")]
    Memory,
}

impl From<Memory> for TextFault {
    ghost use Rattle.std.specs.Prelude.{◌≡◌};
    ghost use Rattle.ht_outside.specs.declared.text_fault.TextFault.TheVariants as fault;

    ghost from_gives = { λ _ f. f ≡ fault.Memory };

    fn from(_memory: Memory) -> TextFault {
        TextFault::Memory
    }
}
