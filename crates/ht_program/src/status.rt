ghost use Rattle.std.specs.Prelude.{◌≡◌, ◌≢◌, ◌+◌, ◌≤◌, [], ◌++◌, length, codes, decimal};
ghost use Rattle.std.specs.Process.{exit_status};
ghost use Rattle.ht_program.specs.Statuses.{end_line, end_status, ending_line, ending_status};

use crate::fault_lines::{line_of_fault, status_of_fault};
use arrayvec::ArrayVec;
use ht_desk::OpenFault;
use ht_serve::Ending;
use std::process::ExitCode;

/// The exit status of the program: 0 done, 1 a request that can't be read, 2 wrong words, 3 a text
/// that can't be read, 4 a text that is too long or refused, 5 a journal that is damaged, or that is
/// not one of this office, 6 a fault of the journal's disks, 7 a fault of input or output, 8 no memory,
/// 9 more requests than one run answers.
#[derive(Clone, Copy, Debug, PartialEq, Eq)]
pub struct Status(pub u8);

impl Status {
    pub const USAGE: Status = Status(2);

    pub const MEMORY: Status = Status(8);
}

/// What the process ends with.
pub fn exit_code(status: Status) -> ExitCode
    ensures { exit_status result ≡ status.0 }
{
    ExitCode::from(status.0)
}

/// A line on complaints, with its line feed, of at most 64 bytes.
pub type Line = ArrayVec<u8, 64>;

/// The line for wrong words.
pub const USAGE_LINE: &[u8] = b"usage: office run, serve, check, load or export\n";

/// The status of what was done: that of its ending, or of why the office was not opened.
pub(crate) fn status_of(end: Result<Ending, OpenFault>) -> Status
    ensures { result.0 ≡ end_status end }
{
    match end {
        Ok(ending) => status_of_ending(ending),
        Err(fault) => status_of_fault(fault),
    }
}

fn status_of_ending(ending: Ending) -> Status
    ensures { result.0 ≡ ending_status ending }
{
    Status(match ending {
        Ending::Done => 0,
        Ending::Wire(_) => 1,
        Ending::ReadFault => 7,
        Ending::WriteFault => 7,
        Ending::Memory => 8,
        Ending::Budget => 9,
    })
}

/// The line on complaints about it, empty where there is none.
pub(crate) fn line_of(end: Result<Ending, OpenFault>) -> Line
    ensures { result.items ≡ end_line end }
{
    match end {
        Ok(ending) => line_of_ending(ending),
        Err(fault) => line_of_fault(fault),
    }
}

fn line_of_ending(ending: Ending) -> Line
    ensures { result.items ≡ ending_line ending }
{
    let mut line = Line::new();
    match ending {
        Ending::Done => {}
        Ending::Wire(code) => put_wire(&mut line, code),
        Ending::ReadFault => {}
        Ending::WriteFault => {}
        Ending::Memory => put(&mut line, b"memory\n"),
        Ending::Budget => put(&mut line, b"budget\n"),
    }
    line
}

fn put_wire(line: &mut Line, code: u16)
    requires { line.old.items ≡ [] }
    ensures { line.new.items ≡ codes "wire: " ++ decimal code ++ codes "\n" }
{
    let mut digits = itoa::Buffer::new();
    put(line, b"wire: ");
    put(line, digits.format(code).as_bytes());
    put(line, b"\n");
}

/// Puts bytes behind those that are there, for which there is room.
pub fn put(line: &mut Line, bytes: &[u8])
    requires { length line.old.items + length bytes.now ≤ 64 }
    ensures { line.new.items ≡ line.old.items ++ bytes.now }
{
    let _ = line.try_extend_from_slice(bytes);
}
