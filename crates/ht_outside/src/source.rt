ghost use Rattle.std.specs.Prelude.{◌≡◌, None};
ghost use Rattle.ht_outside.specs.Causes.{HasCause};
ghost use Rattle.ht_outside.specs.Tells.{IsLastRead, ReadTakes, SinkState, SourceState};

use crate::Failed;

/// Where bytes come from.
pub trait Source {
    /// The bytes left, the bytes taken so far and those taken before the last read, where the
    /// source tells them, and how many reads failed. No call makes a source begin or cease to
    /// tell. The count stops at 18446744073709551615.
    ghost source_state: { Self → SourceState };

    /// What a sink that lies in the same object tells.
    ghost beside_source: { Self → SinkState } = { λ _. record { written = None; faults = 0 } };

    /// What reading keeps besides, of the source before it and the source behind it.
    ghost same_source: { Self → Self → Type 0 } = { λ _ _. Unit {0} };

    /// Takes the first bytes of those left, as many as it answers and at most as many as `into`
    /// holds. For an `into` that isn't empty, 0 is the end. After a failure nothing was taken.
    fn read(&mut self, into: &mut [u8]) -> Result<usize, Failed>
        ensures bytes { ReadTakes (source_state self.old).flow (source_state self.new).flow result
            into.new }
        ensures last { IsLastRead (source_state self.old).flow (source_state self.new).flow }
        ensures beside { beside_source self.new ≡ beside_source self.old }
        ensures same { same_source self.old self.new }
        ensures cause { HasCause (source_state self.old).faults (source_state self.new).faults
            result };
}
