ghost use Rattle.std.specs.Prelude.{◌≡◌, ◌+◌, ◌≤◌, ◌++◌, decimal, length};
ghost use Rattle.ht_outside.specs.Causes.{HasCause};
ghost use Rattle.ht_outside.specs.Tells.{WriteGrows};
ghost use Rattle.ht_server.specs.Services.{counts_line};

use arrayvec::ArrayVec;
use ht_desk::Counts;
use ht_outside::{Failed, Sink};

// Three numbers of at most 20 digits, and 25 bytes beside them.
type Line = ArrayVec<u8, 85>;

/// Writes `turns T accepted A raised R` and a line feed, by one write. After a failure a prefix of it was
/// written. It takes no memory.
pub(crate) fn write_counts<K: Sink>(counts: Counts, output: &mut K) -> Result<(), Failed>
    ensures written { WriteGrows (K.sink_state output.old).written (K.sink_state output.new).written
        result (counts_line counts) }
    ensures cause { HasCause (K.sink_state output.old).faults (K.sink_state output.new).faults
        result }
{
    output.write(&line_of(counts))
}

fn line_of(counts: Counts) -> Line
    ensures { result.items ≡ counts_line counts }
{
    let mut line = Line::new();
    put_number(&mut line, b"turns ", counts.turns);
    put_number(&mut line, b" accepted ", counts.accepted);
    put_number(&mut line, b" raised ", counts.taken);
    put(&mut line, b"\n");
    line
}

// Puts a number behind words, for which there is room.
fn put_number(line: &mut Line, words: &[u8], n: u64)
    requires { length line.old.items + length words.now + 20 ≤ 85 }
    ensures text { line.new.items ≡ line.old.items ++ words.now ++ decimal n }
    ensures short { length line.new.items ≤ length line.old.items + length words.now + 20 }
{
    let mut digits = itoa::Buffer::new();
    put(line, words);
    put(line, digits.format(n).as_bytes());
}

// Puts bytes behind those that are there, for which there is room.
fn put(line: &mut Line, bytes: &[u8])
    requires { length line.old.items + length bytes.now ≤ 85 }
    ensures { line.new.items ≡ line.old.items ++ bytes.now }
{
    let _ = line.try_extend_from_slice(bytes);
}
