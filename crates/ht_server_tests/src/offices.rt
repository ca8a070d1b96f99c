//! An office in memory, and what a run of the program leaves.
use crate::doors::{Script, Seen, StillClock, WaitingDoor};
use ht_base::{Bytes, Txt};
use ht_outside::{MemoryDisk, MemorySink, MemorySource, MemoryTexts};
use ht_program::Status;
use ht_samples::{MODELS, PEOPLE};
use ht_server::office;
use std::alloc::Global;
use std::sync::Wait;
use std::test::Fail;
use std::thread::Threads;

// A task that is to be started in five seconds; else dan is told.
const LATE: &str = "\
[[model]]
name = \"late\"
potentialOwners = \"group('clerks')\"
[[model.deadline]]
name = \"begin\"
kind = \"start\"
for = \"PT5S\"
escalation = [{name = \"tell\", notify = \"user('dan')\"}]
";

/// What a run of the program leaves.
#[derive(Drop)]
pub(crate) struct Ran {
    pub(crate) status: Status,
    pub(crate) output: MemorySink,
    pub(crate) complaints: MemorySink,
    /// What was written to the first link and to the second one.
    pub(crate) first: Bytes,
    pub(crate) second: Bytes,
    /// Whether a thread waited in vain.
    pub(crate) in_vain: bool,
}

/// The two disks of a journal.
#[derive(Drop)]
pub(crate) struct Disks {
    first: MemoryDisk,
    second: MemoryDisk,
}

impl Disks {
    /// A disk with these bytes, of whose calls these fail, and an empty one.
    pub(crate) fn make(alloc: Global, bytes: &[u8], failing: &[u32]) -> Result<Disks, Fail> {
        let failing = Vec::from_slice(alloc, failing)?;
        Ok(Disks {
            first: MemoryDisk::make(alloc, Bytes::of(alloc, bytes)?, failing)?,
            second: MemoryDisk::make(alloc, Bytes::of(alloc, b"")?, Vec::new(alloc))?,
        })
    }
}

fn words_of(alloc: Global, line: &str) -> Result<Vec<String>, Fail> {
    let mut words = Vec::new(alloc);
    for word in line.split_whitespace() {
        words.push(String::from_str(alloc, word)?)?;
    }
    Ok(words)
}

// The texts of the samples, one with a deadline, and one that is refused.
fn texts(alloc: Global) -> Result<MemoryTexts, Fail> {
    let mut named = Vec::new(alloc);
    for (name, text) in [("m", MODELS), ("late", LATE), ("bad", "["), ("p", PEOPLE)] {
        let bytes = Bytes::of(alloc, text.as_bytes())?;
        named.push((Txt::of(alloc, name)?, bytes))?;
    }
    Ok(MemoryTexts::make(alloc, named, Vec::new(alloc))?)
}

/// Runs the program by these words, over these disks, at such a door and with this input.
pub(crate) fn run<R: Threads + Wait + Sync>(
    rt: &R,
    alloc: Global,
    line: &str,
    disks: &mut Disks,
    script: &Script<'_>,
    input: &str,
) -> Result<Ran, Fail> {
    let words = words_of(alloc, line)?;
    let mut texts = texts(alloc)?;
    let seen = Seen::nothing();
    let clock = StillClock { seen: &seen };
    let mut door = WaitingDoor::make(rt, alloc, script, &seen)?;
    let input = Bytes::of(alloc, input.as_bytes())?;
    let mut input = MemorySource::make(alloc, input, Vec::new(alloc))?;
    let mut output = MemorySink::make(alloc, Vec::new(alloc))?;
    let mut complaints = MemorySink::make(alloc, Vec::new(alloc))?;
    let status = office(
        rt,
        alloc,
        &words,
        &mut texts,
        &mut disks.first,
        &mut disks.second,
        &clock,
        &mut door,
        &mut input,
        &mut output,
        &mut complaints,
    );
    Ok(Ran {
        status,
        output,
        complaints,
        first: door.written(0)?,
        second: door.written(1)?,
        in_vain: seen.waited_in_vain(),
    })
}
