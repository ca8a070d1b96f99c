ghost use Rattle.std.specs.Prelude.{◌≡◌, None};
ghost use Rattle.ht_outside.specs.Causes.{HasCause};
ghost use Rattle.ht_outside.specs.Tells.{SinkState, SourceState, WriteGrows};

use crate::Failed;

/// Where bytes go.
pub trait Sink {
    /// The bytes written so far, where the sink tells them, and how many writes failed. No call
    /// makes a sink begin or cease to tell. The count stops at 18446744073709551615.
    ghost sink_state: { Self → SinkState };

    /// What a source that lies in the same object tells.
    ghost beside_sink: { Self → SourceState } = { λ _. record { flow = None; faults = 0 } };

    /// What writing keeps besides, of the sink before it and the sink behind it.
    ghost same_sink: { Self → Self → Type 0 } = { λ _ _. Unit {0} };

    /// Writes the whole piece behind what was written. After a failure a prefix of it was.
    fn write(&mut self, piece: &[u8]) -> Result<(), Failed>
        ensures bytes { WriteGrows (sink_state self.old).written (sink_state self.new).written
            result piece.now }
        ensures beside { beside_sink self.new ≡ beside_sink self.old }
        ensures same { same_sink self.old self.new }
        ensures cause { HasCause (sink_state self.old).faults (sink_state self.new).faults result };
}
