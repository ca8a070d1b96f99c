use ht_base::State;

/// What follows once an operation has changed its task.
#[derive(Clone, Copy)]
pub enum Follow {
    Nothing,
    /// The task is worked on.
    Began,
    /// The task is to be activated.
    Activate,
    /// The task is suspended: what is below it is to be held.
    Held,
    /// The task is resumed: what is below it is to be freed.
    Freed,
    /// The task is to end in this final state.
    Close(State),
}
