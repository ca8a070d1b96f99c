/// A machine that goes on by one event at a time.
pub trait Stepper {
    type Event;

    type Reply;

    /// Which events it takes, in whatever state it is.
    ghost takes: { Self.Event → Type 0 };

    /// What holds of the machine before its first step, and behind each.
    ghost stands: { Self → Type 0 };

    /// What a step relates: the state before it, its event, its reply and the state behind it.
    ghost relates: { Self → Self.Event → Self.Reply → Self → Type 0 };

    /// Makes one step, for the caller of this number.
    fn step(&mut self, seat: u32, event: &Self::Event) -> Self::Reply
        requires stands { stands self.old }
        requires takes { takes event.now }
        ensures stands { stands self.new }
        ensures relates { relates self.old event.now result self.new };
}
