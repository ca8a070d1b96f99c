/// To whom an owner may delegate a task (WS-HumanTask 1.1, "potentialDelegatees").
#[derive(Clone, Copy, Debug, PartialEq, Eq)]
pub enum Delegation {
    Anybody,
    Nobody,
    PotentialOwners,
    /// The delegatees that the model gives.
    Other,
}

/// How the sub tasks of a composite task come (WS-HumanTask 1.1, 3.2).
#[derive(Clone, Copy, Debug, PartialEq, Eq)]
pub enum Composition {
    /// One behind another.
    Sequential,
    /// All at once.
    Parallel,
}

/// Whether something is done by the owner of a task, or follows.
#[derive(Clone, Copy, Debug, PartialEq, Eq)]
pub enum Trigger {
    Manual,
    Automatic,
}
