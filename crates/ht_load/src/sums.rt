ghost use Rattle.std.specs.Prelude.{◌≡◌};
ghost use Rattle.ht_load.specs.Sums.{sums_line};
ghost use Rattle.ht_outside.specs.Causes.{HasCause};
ghost use Rattle.ht_outside.specs.Tells.{WriteGrows};

use crate::lines::{Line, put, put_number};
use ht_outside::{Failed, Sink};

/// How many requests were made, how many of them were answered as done and how many otherwise, and how many
/// tasks there are at the end.
#[derive(Clone, Copy, Debug)]
pub struct Sums {
    pub requests: u32,
    pub accepted: u32,
    pub refused: u32,
    pub tasks: u32,
}

/// Writes `requests C accepted A refused R tasks T` and a line feed, by one write. After a failure a prefix
/// of it was written. It takes no memory.
pub fn write_sums<K: Sink>(sums: Sums, output: &mut K) -> Result<(), Failed>
    ensures written { WriteGrows (K.sink_state output.old).written (K.sink_state output.new).written
        result (sums_line sums) }
    ensures beside { K.beside_sink output.new ≡ K.beside_sink output.old }
    ensures same { K.same_sink output.old output.new }
    ensures cause { HasCause (K.sink_state output.old).faults (K.sink_state output.new).faults
        result }
{
    output.write(&line_of(sums))
}

fn line_of(sums: Sums) -> Line
    ensures { result.items ≡ sums_line sums }
{
    let mut line = Line::new();
    put_number(&mut line, b"requests ", sums.requests);
    put_number(&mut line, b" accepted ", sums.accepted);
    put_number(&mut line, b" refused ", sums.refused);
    put_number(&mut line, b" tasks ", sums.tasks);
    put(&mut line, b"\n");
    line
}
