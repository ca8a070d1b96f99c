ghost use Rattle.std.specs.Prelude.{◌≡◌, Some, refl};
ghost use Rattle.std.proofs.Common.{◌∙◌};

use ht_outside::{Failed, Link, MemorySink, MemorySource, Sink, Source};

/// A link of a door in memory. Reading and writing keep its place.
#[derive(Drop)]
pub struct MemoryLink {
    pub(crate) source: MemorySource,
    pub(crate) sink: MemorySink,
    /// Among the links of the door, counted from 0.
    pub(crate) place: u32,
}

impl Source for MemoryLink {
    ghost source_state = { λ l. record { flow = Some l.source.flow; faults = l.source.faults } };

    ghost beside_source = { λ l. record { written = Some l.sink.written; faults = l.sink.faults } };

    ghost same_source = { λ p q. q.place ≡ p.place };

    fn read(&mut self, into: &mut [u8]) -> Result<usize, Failed> {
        self.source.read(into)
    }
}

impl Sink for MemoryLink {
    ghost sink_state = { λ l. record { written = Some l.sink.written; faults = l.sink.faults } };

    ghost beside_sink = { λ l. record { flow = Some l.source.flow; faults = l.source.faults } };

    ghost same_sink = { λ p q. q.place ≡ p.place };

    fn write(&mut self, piece: &[u8]) -> Result<(), Failed> {
        self.sink.write(piece)
    }
}

impl Link for MemoryLink {
    ghost same = { λ p q. q.place ≡ p.place };

    ghost reads_alone = { λ x. refl };

    ghost writes_alone = { λ x. refl };

    ghost same_self = { λ x. refl };

    ghost read_same = { λ x y kept. kept };

    ghost write_same = { λ x y kept. kept };

    ghost same_on = { λ x y z first then_on. then_on ∙ first };
}
