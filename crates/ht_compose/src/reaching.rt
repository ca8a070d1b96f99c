use ht_base::State;

/// What reaches the tasks below another one.
#[derive(Clone, Copy)]
pub(crate) enum Reach {
    /// The task itself ends in this state too.
    Close(State),
    Skip,
    Hold,
    Free,
}

/// What comes of one task.
#[derive(Clone, Copy)]
pub(crate) enum Change {
    Nothing,
    End(State),
    Hold,
    Free,
}
