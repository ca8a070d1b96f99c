ghost use Rattle.std.specs.Prelude.{◌≡◌, None};

use crate::{Failed, Sink};
use std::io::Write;

/// A writer of std as a sink, such as standard output. Each piece is flushed. It tells no bytes.
#[derive(Drop)]
pub struct StdSink<W: Write + Drop> {
    writer: W,
    faults: u64,
}

impl<W: Write + Drop> StdSink<W> {
    pub fn new(writer: W) -> StdSink<W>
        ensures { result.faults ≡ 0 }
    {
        StdSink { writer, faults: 0 }
    }
}

impl<W: Write + Drop> Sink for StdSink<W> {
    ghost sink_state = { λ s. record { written = None; faults = s.faults } };

    fn write(&mut self, piece: &[u8]) -> Result<(), Failed> {
        if self.writer.write_all(piece).is_ok() && self.writer.flush().is_ok() {
            return Ok(());
        }
        self.faults = self.faults.saturating_add(1);
        Err(Failed)
    }
}
