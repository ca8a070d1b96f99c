ghost use Rattle.std.specs.Prelude.{◌≡◌};

use std::alloc::AllocFailed;
use thiserror::Error;

/// Why a text is no expression or assignment. The first cause in this order is the one that is
/// told; memory may run out at any time. A place counts the bytes of the text before it.
#[derive(Clone, Copy, Debug, PartialEq, Eq, Error)]
pub enum ExprRefusal {
    /// At this byte no token begins.
    #[error("no token begins at byte {0}")]
    Token(usize),
    /// The text has more tokens than it may.
    #[error("too many tokens")]
    TooLong,
    /// Here stands the first token that no text with the tokens before it can have there. Where the
    /// end comes too early, it is the text's length.
    #[error("what stands at byte {0} can't stand there")]
    Shape(usize),
    /// The text speaks of a part that isn't declared, or of a value of another kind than can stand
    /// there, even in a branch that is never taken.
    #[error("a part that isn't declared, or a value of another kind")]
    BadKind,
    #[error("out of memory")]
    Memory,
}

impl From<ht_base::Memory> for ExprRefusal {
    ghost use Rattle.ht_expr.specs.declared.refusal.ExprRefusal.TheVariants.{Memory};

    ghost from_gives = { λ _ e. e ≡ Memory };

    fn from(_memory: ht_base::Memory) -> ExprRefusal {
        ExprRefusal::Memory
    }
}

impl<T: Drop> From<AllocFailed<T>> for ExprRefusal {
    ghost use Rattle.ht_expr.specs.declared.refusal.ExprRefusal.TheVariants.{Memory};

    ghost from_gives = { λ _ e. e ≡ Memory };

    fn from(_failed: AllocFailed<T>) -> ExprRefusal {
        ExprRefusal::Memory
    }
}
