use ht_base::{Memory, Refusal};
use thiserror::Error;

/// Why an operation is not done.
#[derive(Clone, Copy, Debug, Error)]
pub enum ActRefusal {
    /// What the command names, or the task itself, doesn't allow it.
    #[error("the command is refused")]
    Refused(Refusal),
    #[error("out of memory")]
    Memory,
}

impl From<Memory> for ActRefusal {
    ghost use Rattle.std.specs.Prelude.{◌≡◌};
    ghost use Rattle.ht_owner.specs.declared.refusal.ActRefusal.TheVariants as why;

    ghost from_gives = { λ _ refusal. refusal ≡ why.Memory };

    fn from(_memory: Memory) -> ActRefusal {
        ActRefusal::Memory
    }
}
