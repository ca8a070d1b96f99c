//! The program: hands its words, files, disks and streams, the clock of the system and a port to the top
//! call, and ends with the exit code of the status.
#![tactic(auto)]

use ht_doors::{SystemClock, TcpDoor};
use ht_outside::{FileDisk, FileTexts, StdSink, StdSource};
use ht_program::{exit_code, tell_no_memory};
use ht_server::office;
use std::env;
use std::io::{self, ErrorKind};
use std::process::ExitCode;
use std::rt::Env;

fn main(rt: HostRuntime) -> ExitCode {
    let mut complaints = StdSink::new(rt.stderr());
    let words = match words_of(&rt) {
        Ok(words) => words,
        Err(error) => {
            if error.kind() == ErrorKind::OutOfMemory {
                return exit_code(tell_no_memory(&mut complaints));
            }
            // Words that are no text are not in the grammar, as none are.
            Vec::new(rt.alloc())
        }
    };
    let mut input = StdSource::new(rt.stdin());
    let mut output = StdSink::new(rt.stdout());
    let mut texts = FileTexts::new(rt.alloc(), &rt);
    let mut first = FileDisk::new(&rt);
    let mut second = FileDisk::new(&rt);
    let clock = SystemClock::new(&rt);
    let mut door = TcpDoor::new(&rt);
    let status = office(
        &rt,
        rt.alloc(),
        &words,
        &mut texts,
        &mut first,
        &mut second,
        &clock,
        &mut door,
        &mut input,
        &mut output,
        &mut complaints,
    );
    exit_code(status)
}

// The words behind the program's name.
fn words_of(rt: &(impl Env + AllocGlobal)) -> io::Result<Vec<String>> {
    let mut words = Vec::new(rt.alloc());
    for word in env::args(rt)?.skip(1) {
        words.push(word)?;
    }
    Ok(words)
}
