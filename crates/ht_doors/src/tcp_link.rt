ghost use Rattle.std.specs.Prelude.{◌≡◌, ◌≤◌, IfSome, None, length, refl};

use ht_outside::{Failed, Link, Sink, Source};
use std::io::{ErrorKind, Read, Write};
use std::net::{Shutdown, TcpStream};
use std::time::Duration;

// How often a read is tried that a signal interrupts.
const TRIES: u32 = 64;

// How much of a rest is read: so many pieces at most, for each of which is waited so many milliseconds.
const REST_PIECES: u32 = 128;

const REST_PIECE: usize = 16_384;

const REST_WAIT: u64 = 250;

/// A connection over TCP. It tells no bytes.
#[derive(Drop)]
pub struct TcpLink {
    stream: TcpStream,
    read_faults: u64,
    write_faults: u64,
}

impl TcpLink {
    pub(crate) fn new(stream: TcpStream) -> TcpLink
        ensures { (result.read_faults ≡ 0) × (result.write_faults ≡ 0) }
    {
        TcpLink {
            stream,
            read_faults: 0,
            write_faults: 0,
        }
    }

    /// Tells the other side that nothing follows, and reads a rest of what it sends. A connection that
    /// is closed with bytes unread is reset, and the other side may lose what was written to it.
    pub(crate) fn end(&mut self) {
        let patience = Some(Duration::from_millis(REST_WAIT));
        if self.stream.shutdown(Shutdown::Write).is_err()
            || self.stream.set_read_timeout(patience).is_err()
        {
            return;
        }
        let mut piece = [0; REST_PIECE];
        for _ in 0..REST_PIECES {
            match self.stream.read(&mut piece) {
                Ok(0) | Err(_) => return,
                Ok(_) => {}
            }
        }
    }
}

impl Source for TcpLink {
    ghost source_state = { λ l. record { flow = None; faults = l.read_faults } };

    ghost beside_source = { λ l. record { written = None; faults = l.write_faults } };

    fn read(&mut self, into: &mut [u8]) -> Result<usize, Failed> {
        match read_once(&mut self.stream, into) {
            Some(count) => Ok(count),
            None => {
                self.read_faults = self.read_faults.saturating_add(1);
                Err(Failed)
            }
        }
    }
}

impl Sink for TcpLink {
    ghost sink_state = { λ l. record { written = None; faults = l.write_faults } };

    ghost beside_sink = { λ l. record { flow = None; faults = l.read_faults } };

    fn write(&mut self, piece: &[u8]) -> Result<(), Failed> {
        if self.stream.write_all(piece).is_err() {
            self.write_faults = self.write_faults.saturating_add(1);
            return Err(Failed);
        }
        Ok(())
    }
}

impl Link for TcpLink {
    ghost reads_alone = { λ x. refl };

    ghost writes_alone = { λ x. refl };

    ghost same_self = { λ x. tt };

    ghost read_same = { λ x y kept. tt };

    ghost write_same = { λ x y kept. tt };

    ghost same_on = { λ x y z first then_on. tt };
}

// One read that no signal interrupts.
fn read_once(stream: &mut TcpStream, into: &mut [u8]) -> Option<usize>
    ensures { IfSome result (λ count. count ≤ length into.new) }
{
    for _ in 0..TRIES {
        match stream.read(into) {
            Ok(count) => return Some(count),
            Err(error) if error.kind() == ErrorKind::Interrupted => {}
            Err(_) => return None,
        }
    }
    None
}
