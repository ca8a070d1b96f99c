//! Why a turn lock isn't made, and why a pass isn't given.
use thiserror::Error;

/// There is no memory for a turn lock. The machine comes back.
#[derive(Drop)]
pub enum MakeRefusal<T> {
    Memory(T),
}

/// Why no pass is given.
#[derive(Clone, Copy, Debug, PartialEq, Eq, Error)]
pub enum SplitRefusal {
    /// As many passes were given as there are numbers.
    #[error("every number of a pass was given")]
    Spent,
    /// No call answers it, since a pass takes no memory.
    #[error("no memory")]
    Memory,
}
