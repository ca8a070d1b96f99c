use thiserror::Error;

/// No turn of a machine is left for its caller, for which it made no step.
#[derive(Clone, Copy, Debug, PartialEq, Eq, Error)]
#[error("no turn is left")]
pub struct Spent;
