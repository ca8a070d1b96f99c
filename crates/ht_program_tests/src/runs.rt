use ht_base::{Bytes, Txt};
use ht_outside::{MemoryDisk, MemorySink, MemorySource, MemoryTexts};
use ht_program::{Status, are_alone, office_alone, tell_no_memory};
use ht_samples::{MODELS, PEOPLE};
use std::alloc::Global;
use std::process::Abort;
use std::test::Fail;

// What a run of the program leaves.
#[derive(Drop)]
pub(crate) struct Ran {
    pub status: Status,
    pub output: MemorySink,
    pub complaints: MemorySink,
    left: usize,
}

pub(crate) fn words(alloc: Global, line: &str) -> Result<Vec<String>, Fail> {
    let mut words = Vec::new(alloc);
    for word in line.split_whitespace() {
        words.push(String::from_str(alloc, word)?)?;
    }
    Ok(words)
}

// The texts of an office, each behind its name, and the numbers of the reads that fail.
#[derive(Clone, Copy)]
pub(crate) struct Office<'a> {
    pub texts: &'a [(&'a str, &'a str)],
    pub failing: &'a [u32],
}

pub(crate) const NO_TEXTS: Office = Office {
    texts: &[],
    failing: &[],
};

fn texts_of(alloc: Global, office_texts: &Office<'_>) -> Result<MemoryTexts, Fail> {
    let mut named = Vec::new(alloc);
    for (name, text) in office_texts.texts {
        let bytes = Bytes::of(alloc, text.as_bytes())?;
        named.push((Txt::of(alloc, name)?, bytes))?;
    }
    let failing = Vec::from_slice(alloc, office_texts.failing)?;
    Ok(MemoryTexts::make(alloc, named, failing)?)
}

pub(crate) fn source_of(alloc: Global, input: &str, failing: &[u32]) -> Result<MemorySource, Fail> {
    let bytes = Bytes::of(alloc, input.as_bytes())?;
    Ok(MemorySource::make(alloc, bytes, Vec::from_slice(alloc, failing)?)?)
}

pub(crate) fn run_office(
    alloc: Global,
    line: &str,
    office_texts: &Office<'_>,
    input: &str,
    reads: &[u32],
    writes: &[u32],
) -> Result<Ran, Fail> {
    let mut first = disk_of(alloc, &[])?;
    let mut second = disk_of(alloc, &[])?;
    let source = source_of(alloc, input, reads)?;
    run_on(
        alloc,
        line,
        office_texts,
        &mut first,
        &mut second,
        source,
        writes,
    )
}

// An empty disk, of whose calls these fail.
pub(crate) fn disk_of(alloc: Global, failing: &[u32]) -> Result<MemoryDisk, Fail> {
    let failing = Vec::from_slice(alloc, failing)?;
    Ok(MemoryDisk::make(alloc, Bytes::of(alloc, &[])?, failing)?)
}

// The same on these disks.
pub(crate) fn run_on(
    alloc: Global,
    line: &str,
    office_texts: &Office<'_>,
    first: &mut MemoryDisk,
    second: &mut MemoryDisk,
    mut source: MemorySource,
    writes: &[u32],
) -> Result<Ran, Fail> {
    let words = words(alloc, line)?;
    if !are_alone(&words) {
        return Err(Fail::from("words of serve"));
    }
    let mut texts = texts_of(alloc, office_texts)?;
    let mut output = MemorySink::make(alloc, Vec::from_slice(alloc, writes)?)?;
    let mut complaints = MemorySink::make(alloc, Vec::new(alloc))?;
    let status = office_alone(
        alloc,
        &words,
        &mut texts,
        first,
        second,
        &mut source,
        &mut output,
        &mut complaints,
    );
    Ok(Ran {
        status,
        output,
        complaints,
        left: source.left().len(),
    })
}

fn run_with(
    alloc: Global,
    line: &str,
    input: &str,
    reads: &[u32],
    writes: &[u32],
) -> Result<Ran, Fail> {
    run_office(alloc, line, &NO_TEXTS, input, reads, writes)
}

pub(crate) fn run(alloc: Global, input: &str) -> Result<Ran, Fail> {
    run_with(alloc, "run --from 1000 --step 1000", input, &[], &[])
}

// The bytes of a reply with this status line and this text.
pub(crate) fn reply(alloc: Global, line: &str, text: &str, close: bool) -> Result<String, Fail> {
    let closing = if close { "connection: close\r\n" } else { "" };
    let length = text.len();
    let head = format!(in alloc; "HTTP/1.1 {line}\r\ncontent-type: application/json\r\n")?;
    Ok(format!(in alloc; "{head}content-length: {length}\r\n{closing}\r\n{text}")?)
}

pub(crate) const CREATE: &str = "POST /tasks HTTP/1.1\r\nHost: a\r\nx-person: p3\r\n\r\n";

pub(crate) const CLAIM: &str = "POST /tasks/1/claim HTTP/1.1\r\nHost: a\r\nx-person: p0\r\n\r\n";

pub(crate) const GET: &str = "GET /tasks/1 HTTP/1.1\r\nHost: a\r\nx-person: p5\r\n\r\n";

#[test]
fn a_task_is_created_claimed_and_shown(rt: HostRuntime) -> Result<(), Fail> {
    let again = "POST /tasks/1/claim HTTP/1.1\r\nHost: a\r\nx-person: p1\r\n\r\n";
    let input = format!(in rt.alloc(); "{CREATE}{CLAIM}{GET}{again}")?;
    let ran = run(rt.alloc(), input.as_str())?;
    let sheet = "{\"administrators\":[],\"byGroup\":true,\"comments\":[],\"created\":1000,\
        \"excludedOwners\":[],\"fault\":null,\"initiator\":\"p3\",\"input\":{},\"lastOwner\":null,\
        \"model\":\"unit\",\"output\":{},\"owner\":\"p0\",\"parent\":null,\"potentialOwners\":[\"p0\",\
        \"p1\",\"p2\",\"p3\",\"p4\",\"p5\",\"p6\",\"p7\",\"p8\",\"p9\",\"p10\",\"p11\",\"p12\",\"p13\",\"p14\",\
        \"p15\"],\"priority\":5,\"stakeholders\":[],\"started\":false,\"state\":\"Reserved\",\
        \"subs\":[],\"task\":1,\"until\":null,\"waits\":null}";
    let refused = "{\"allowed\":[\"Ready\"],\"fault\":\"State\",\"state\":\"Reserved\"}";
    let created = "HTTP/1.1 201 Created\r\ncontent-type: application/json\r\n\
        content-length: 39\r\n\r\n{\"owner\":null,\"state\":\"Ready\",\"task\":1}";
    let claimed = "HTTP/1.1 200 OK\r\ncontent-type: application/json\r\n\
        content-length: 42\r\n\r\n{\"owner\":\"p0\",\"state\":\"Reserved\",\"task\":1}";
    let shown = reply(rt.alloc(), "200 OK", sheet, false)?;
    let refused = reply(rt.alloc(), "409 Conflict", refused, false)?;
    let want = format!(in rt.alloc(); "{created}{claimed}{shown}{refused}")?;
    assert_eq!(rt; ran.status, Status(0));
    assert_eq!(rt; ran.output.written(), want.as_bytes());
    assert!(rt; ran.complaints.written().is_empty());
    Ok(())
}

#[test]
fn a_task_is_created_by_json(rt: HostRuntime) -> Result<(), Fail> {
    let input = "POST /tasks HTTP/1.1\r\nHost: localhost:8080\r\nUser-Agent: curl/8.5.0\r\n\
        Accept: */*\r\nx-person: dan\r\nContent-Type: application/json\r\nContent-Length: 16\r\n\r\n\
        {\"model\":\"unit\"}";
    let office = Office {
        texts: &[("m", MODELS), ("p", PEOPLE)],
        failing: &[],
    };
    let line = "run --from 0 --step 0 --models m --people p";
    let ran = run_office(rt.alloc(), line, &office, input, &[], &[])?;
    let want =
        "HTTP/1.1 201 Created\r\ncontent-type: application/json\r\ncontent-length: 39\r\n\r\n\
        {\"owner\":null,\"state\":\"Ready\",\"task\":1}";
    assert_eq!(rt; ran.status, Status(0));
    assert_eq!(rt; ran.output.written(), want.as_bytes());
    Ok(())
}

#[test]
fn want_of_memory_for_the_words_is_told(rt: HostRuntime) -> Result<(), Fail> {
    let mut complaints = MemorySink::make(rt.alloc(), Vec::new(rt.alloc()))?;
    assert_eq!(rt; tell_no_memory(&mut complaints), Status(8));
    assert_eq!(rt; complaints.written(), b"memory\n".as_slice());
    Ok(())
}

#[test]
fn an_empty_input_is_done(rt: HostRuntime) -> Result<(), Fail> {
    for input in ["", "\r\n\r\n"] {
        let ran = run(rt.alloc(), input)?;
        assert_eq!(rt; ran.status, Status(0));
        assert!(rt; ran.output.written().is_empty());
        assert!(rt; ran.complaints.written().is_empty());
    }
    Ok(())
}

// One of the lines is empty: no words at all.
const WRONG_WORDS: &str = "\
run

run --from 0
run --from 0 --from 0
run --from 0 --step 00
run --from 0 --step +1
run --from 0 --step 253402300800000
run --from=0 --step=0
run --from 0 --step 0 --limit 1048575
run --from 0 --step 0 --journal -j
run --from 0 --step 0 --journal a --journal b
run --from 0 --step 0 --port 80
run --from 0 --step 0 --seed 0
serves --from 0 --step 0
check
check --models m
check --models m --people p --step 0
export --models m --people p
export --journal j --limit 1048576
load --seed 0
load --seed 18446744073709551616 --count 0
load --seed 0 --count 1048577
load --seed 0 --count 0 --models m --people p";

#[test]
fn wrong_words_are_told(rt: HostRuntime) -> Result<(), Fail> {
    let usage = "usage: office run, serve, check, load or export\n";
    for line in WRONG_WORDS.lines() {
        let ran = run_with(rt.alloc(), line, CREATE, &[], &[])?;
        assert_eq!(rt; ran.status, Status(2), "{line:?}");
        assert_eq!(rt; ran.left, CREATE.len());
        assert!(rt; ran.output.written().is_empty());
        assert_eq!(rt; ran.complaints.written(), usage.as_bytes());
    }
    Ok(())
}

#[test]
fn a_fault_of_the_pipe_is_told_by_the_status(rt: HostRuntime) -> Result<(), Fail> {
    let rows: [(&[u32], &[u32]); 2] = [(&[1], &[]), (&[], &[1])];
    for (reads, writes) in rows {
        let ran = run_with(rt.alloc(), "run --from 0 --step 0", CREATE, reads, writes)?;
        assert_eq!(rt; ran.status, Status(7));
        assert!(rt; ran.output.written().is_empty());
        assert!(rt; ran.complaints.written().is_empty());
    }
    Ok(())
}

const SHUT: &str = "[[model]]\nname = \"shut\"\npotentialOwners = \"user('anna')\"\n\
    excludedOwners = \"user('anna')\"\nadministrators = \"user('cora')\"\n";

const WITH_TEXTS: &str = "run --people p --step 1000 --models m --from 1000";

// An office of these texts, where these reads of them fail, tells so with this status, and asks for
// nothing.
fn is_told(
    rt: &impl Abort,
    alloc: Global,
    models: &str,
    people: &str,
    failing: &[u32],
    status: u8,
    line: &str,
) -> Result<(), Fail> {
    let office = Office {
        texts: &[("m", models), ("p", people)],
        failing,
    };
    let ran = run_office(alloc, WITH_TEXTS, &office, CREATE, &[], &[])?;
    assert_eq!(rt; ran.status, Status(status), "{line:?}");
    assert_eq!(rt; ran.complaints.written(), line.as_bytes());
    assert_eq!(rt; ran.left, CREATE.len());
    assert!(rt; ran.output.written().is_empty());
    Ok(())
}

#[test]
fn a_bad_text_is_told(rt: HostRuntime) -> Result<(), Fail> {
    let long = "#".repeat(rt.alloc(), 262_145)?;
    let circle = PEOPLE.replace(rt.alloc(), "\"ben\"]", "\"@clerks\"]")?;
    let rows: [(&str, &str, &[u32], u8, &str); 4] = [
        (SHUT, PEOPLE, &[1], 3, "texts: m\n"),
        (SHUT, PEOPLE, &[2], 3, "texts: p\n"),
        (long.as_str(), PEOPLE, &[], 4, "models: TooLong\n"),
        (SHUT, circle.as_str(), &[], 4, "people: Cycle 5\n"),
    ];
    for (models, people, failing, status, line) in rows {
        is_told(&rt, rt.alloc(), models, people, failing, status, line)?;
    }
    Ok(())
}
