ghost use Rattle.std.specs.Prelude.{◌≡◌, ◌==◌, [], true, Some, IfOk, IsErr};
ghost use Rattle.std.specs.List.{list_any};
ghost use Rattle.ht_outside.specs.Causes.{HasCause, next_count};
ghost use Rattle.ht_outside.specs.Tells.{WriteGrows};

use crate::memory_source::is_among;
use crate::{Failed, Sink};
use ht_base::{Bytes, Memory};
use std::alloc::Global;
use std::marker::Model;

/// A sink in memory, whose writes fail where a test asks for it, and where there is no memory.
#[derive(Drop)]
pub struct MemorySink {
    bytes: Bytes,
    failing: Vec<u32>,
    calls: u64,
    faults: u64,
}

impl Model for MemorySink {
    ghost use Rattle.ht_outside.specs.Scripted.{ScriptedSink};

    ghost Value = { ScriptedSink };

    ghost view = { λ s. record { written = s.bytes.items; failing = s.failing.items; calls = s.calls; faults = s.faults } };
}

impl MemorySink {
    /// A sink with nothing written. `failing` has the numbers, counted from 1, of the writes that
    /// fail.
    pub fn make(alloc: Global, failing: Vec<u32>) -> Result<MemorySink, Memory>
        ensures { IfOk result
            (λ s. s ≡ record { written = []; failing = failing.items; calls = 0; faults = 0 }) }
    {
        Ok(MemorySink {
            bytes: Bytes::new(alloc),
            failing,
            calls: 0,
            faults: 0,
        })
    }

    /// What was written.
    pub fn written(&self) -> &[u8]
        ensures { result.now ≡ self.now.written }
    {
        self.bytes.as_slice()
    }
}

impl Sink for MemorySink {
    ghost sink_state = { λ s. record { written = Some s.written; faults = s.faults } };

    fn write(&mut self, piece: &[u8]) -> Result<(), Failed>
        ensures bytes { WriteGrows (Some self.old.written) (Some self.new.written) result
            piece.now }
        ensures cause { HasCause self.old.faults self.new.faults result }
        ensures fails { list_any (λ n. n == next_count self.old.calls) self.old.failing ≡ true
            → IsErr result }
        ensures counted { self.new.calls ≡ next_count self.old.calls }
    {
        self.calls = self.calls.saturating_add(1);
        if is_among(self.calls, &self.failing) || self.bytes.extend(piece).is_err() {
            self.faults = self.faults.saturating_add(1);
            return Err(Failed);
        }
        Ok(())
    }
}
