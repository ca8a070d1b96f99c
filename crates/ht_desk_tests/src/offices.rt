//! Offices by the names of their records, and what is seen of one that is opened.
use ht_base::{Bytes, Moment};
use ht_desk::{Counts, Desk, LEAST_LIMIT, OpenFault};
use ht_outside::MemoryDisk;
use ht_samples::{MODELS, PEOPLE};
use std::alloc::Global;
use std::test::Fail;

const NO_COUNTS: Counts = Counts {
    turns: 0,
    accepted: 0,
    taken: 0,
};

// The texts of an office.
#[derive(Clone, Copy)]
pub(crate) struct Texts<'a> {
    pub(crate) models: &'a str,
    pub(crate) people: &'a str,
}

// Anybody may have a task of this one.
pub(crate) const OPEN: Texts = Texts {
    models: "[[model]]\nname = \"unit\"\npotentialOwners = \"everybody\"\n",
    people: "[[person]]\nname = \"p0\"\n[[person]]\nname = \"p1\"\n",
};

pub(crate) const SAMPLES: Texts = Texts {
    models: MODELS,
    people: PEOPLE,
};

// Bodies of records: a turn at 1000, at 4000 and at 11000.
const TURN: &[u8] = b"\x01\xe8\x03\0\0\0\0\0\0";

const TURN_4000: &[u8] = b"\x01\xa0\x0f\0\0\0\0\0\0";

const TURN_11000: &[u8] = b"\x01\xf8\x2a\0\0\0\0\0\0";

// p0 creates a task of the model `unit` at 5000.
const CREATE: &[u8] = b"\x02\x88\x13\0\0\0\0\0\0\x02p0\x10\0\0\0\0\x01\x01\x04unit\0\0";

// p0 claims task 1 at 5000, which is Ready, and again at 6000.
const CLAIM: &[u8] = b"\x02\x88\x13\0\0\0\0\0\0\x02p0\x10\x01\0\0\0\x02";

const CLAIM_AGAIN: &[u8] = b"\x02\x70\x17\0\0\0\0\0\0\x02p0\x10\x01\0\0\0\x02";

// dan creates a task of the model `timed` at 1000, of whose deadlines two are due at 11000.
const CREATE_TIMED: &[u8] = b"\x02\xe8\x03\0\0\0\0\0\0\x03dan\x10\0\0\0\0\x01\x01\x05timed\0\0";

// The body of an Opening: the texts, each behind its length.
fn opening(alloc: Global, texts: Texts<'_>) -> Result<Vec<u8>, Fail> {
    let mut body = Vec::from_slice(alloc, b"\0")?;
    for text in [texts.models, texts.people] {
        body.extend_from_slice(&u32::try_from(text.len())?.to_le_bytes())?;
        body.extend_from_slice(text.as_bytes())?;
    }
    Ok(body)
}

// A disk of these bytes, as last synced, of which the calls with these numbers fail.
pub(crate) fn disk(alloc: Global, bytes: &[u8], failing: &[u32]) -> Result<MemoryDisk, Fail> {
    let failing = Vec::from_slice(alloc, failing)?;
    Ok(MemoryDisk::make(alloc, Bytes::of(alloc, bytes)?, failing)?)
}

// A body by its name.
fn body(alloc: Global, name: &str) -> Result<Vec<u8>, Fail> {
    let bytes: &[u8] = match name {
        "opening" => return opening(alloc, OPEN),
        "samples" => return opening(alloc, SAMPLES),
        "turn" => TURN,
        "turn4000" => TURN_4000,
        "turn11000" => TURN_11000,
        "create" => CREATE,
        "timed" => CREATE_TIMED,
        "claim" => CLAIM,
        "again" => CLAIM_AGAIN,
        "cut" => b"\x01\xe8\x03\0\0\0\0\0",
        "250" => b"\xfa",
        _ => return Err(Fail::from("no such body")),
    };
    Ok(Vec::from_slice(alloc, bytes)?)
}

// A file of the bodies with these names.
pub(crate) fn file_of(alloc: Global, names: &str) -> Result<Vec<u8>, Fail> {
    let mut file = Vec::from_slice(alloc, b"HTJ1\r\n\x1a\n")?;
    for name in names.split(" ") {
        let body = body(alloc, name)?;
        file.push(1)?;
        file.extend_from_slice(&u32::try_from(body.len())?.to_le_bytes())?;
        file.extend_from_slice(&body)?;
    }
    file.push(0)?;
    Ok(file)
}

// What is seen of an office that was opened: its tasks, the moment of its last record, and its counts.
#[derive(Clone, Copy, Debug, PartialEq, Eq)]
pub(crate) struct Seen {
    pub(crate) tasks: u32,
    pub(crate) last: Moment,
    pub(crate) counts: Counts,
}

pub(crate) fn found_of(tasks: u32, last: u64) -> Result<Seen, OpenFault> {
    Ok(Seen {
        tasks,
        last: Moment(last),
        counts: NO_COUNTS,
    })
}

// Opens an office over a disk, beside another that has nothing.
pub(crate) fn open(
    alloc: Global,
    texts: Texts<'_>,
    first: &mut MemoryDisk,
) -> Result<Result<Seen, OpenFault>, Fail> {
    let mut second = disk(alloc, b"", &[])?;
    let models = texts.models.as_bytes();
    let people = texts.people.as_bytes();
    if models.len() > 262_144 || people.len() > 262_144 {
        return Err(Fail::from("too long a text"));
    }
    let desk = match Desk::open(alloc, models, people, first, &mut second, LEAST_LIMIT) {
        Ok(desk) => desk,
        Err(fault) => return Ok(Err(fault)),
    };
    let tables = desk.tables();
    let found = Seen {
        tasks: tables.rows(),
        last: tables.last(),
        counts: desk.counts(),
    };
    let _ = desk.close();
    Ok(Ok(found))
}
