use crate::offices::{OPEN, SAMPLES, Seen, Texts, disk, file_of, found_of, open};
use ht_desk::OpenFault;
use ht_models::ModelsRefusal;
use ht_outside::{Disk, MemoryDisk};
use ht_people::PeopleRefusal;
use std::test::Fail;

// A byte of the file.
fn byte(disk: &mut MemoryDisk, at: u64) -> Result<u8, Fail> {
    let mut byte = [0];
    disk.read(at, &mut byte)?;
    Ok(byte[0])
}

#[test]
fn a_new_journal_gets_its_opening(rt: HostRuntime) -> Result<(), Fail> {
    let alloc = rt.alloc();
    let mut people = String::new(alloc);
    for n in 0..16 {
        people.push_str("[[person]]\nname = \"p")?;
        if n > 9 {
            people.push('1')?;
        }
        people.push(char::from(b'0' + n % 10))?;
        people.push_str("\"\n")?;
    }
    let texts = Texts {
        models: OPEN.models,
        people: &people,
    };
    // The last may hold what was never finished.
    for before in [
        &b""[..],
        b"HTJ1",
        b"HTJ1\r\n\x1a\n\0",
        b"HTJ1\r\n\x1a\n\0\x05\0",
    ] {
        let mut first = disk(alloc, before, &[])?;
        assert_eq!(rt; open(alloc, texts, &mut first)?, found_of(0, 0));
        assert_eq!(rt; first.len()?, 451);
        assert!(rt; byte(&mut first, 8)? == 1 && byte(&mut first, 450)? == 0);
        for pick in 0..3 {
            let mut crashed = first.crash(pick)?;
            assert_eq!(rt; open(alloc, texts, &mut crashed)?, found_of(0, 0));
        }
    }
    Ok(())
}

// What an opening answers, by its words: how many tasks there are and the last moment, or the fault.
fn answer(words: &str) -> Result<Result<Seen, OpenFault>, Fail> {
    let (what, number) = words.split_once(" ").unwrap_or((words, ""));
    Ok(match what {
        "texts" => Err(OpenFault::TextsDiffer),
        "record" => Err(OpenFault::RecordRefused(number.parse::<u32>()?)),
        "damaged" => Err(OpenFault::Damaged(number.parse::<u64>()?)),
        _ => found_of(what.parse::<u32>()?, number.parse::<u64>()?),
    })
}

// The gate behind the Opening of `open` stands at 13 + 9 + 54 + 46.
const JUDGED: &str = "\
open: opening => 0 0
open: opening create => 1 5000
open: opening create claim => 1 5000
samples: samples timed turn11000 => 1 11000
open: opening opening => record 2
open: turn => record 1
open: opening claim => record 2
open: opening create claim again => record 4
open: opening turn => record 2
samples: samples timed turn11000 turn4000 => record 4
open: samples => texts
open: samples turn => texts
samples: turn opening => record 1
open: opening 250 => damaged 127
open: opening cut => damaged 135
open: opening turn 250 => record 2
open: samples 250 => texts";

#[test]
fn records_are_judged_one_after_another(rt: HostRuntime) -> Result<(), Fail> {
    let alloc = rt.alloc();
    for line in JUDGED.lines() {
        let (names, words) = line.split_once(" => ").ok_or("bodies and an answer")?;
        let (office, names) = names.split_once(": ").ok_or("an office and bodies")?;
        let texts = if office == "open" { OPEN } else { SAMPLES };
        let mut first = disk(alloc, &file_of(alloc, names)?, &[])?;
        assert_eq!(rt; open(alloc, texts, &mut first)?, answer(words)?);
    }
    Ok(())
}

#[test]
fn texts_are_judged_before_the_file(rt: HostRuntime) -> Result<(), Fail> {
    let alloc = rt.alloc();
    let no_people = Texts {
        models: OPEN.models,
        people: "[[person]]\nname = \"p0\"\n[[person]]\nname = \"p0\"\n",
    };
    let neither = Texts {
        models: "=",
        people: no_people.people,
    };
    for (texts, found) in [
        (no_people, OpenFault::People(PeopleRefusal::Twice(1))),
        (neither, OpenFault::Models(ModelsRefusal::Syntax)),
        (OPEN, OpenFault::Damaged(0)),
    ] {
        let mut first = disk(alloc, b"no journal", &[])?;
        assert_eq!(rt; open(alloc, texts, &mut first)?, Err(found));
    }
    Ok(())
}

#[test]
fn a_disk_that_fails_is_told(rt: HostRuntime) -> Result<(), Fail> {
    let alloc = rt.alloc();
    let kept = file_of(alloc, "opening create")?;
    for (bytes, calls) in [(&b""[..], 8), (&kept[..], 4)] {
        for call in 1..=calls {
            let mut first = disk(alloc, bytes, &[call])?;
            assert_eq!(rt; open(alloc, OPEN, &mut first)?, Err(OpenFault::Store));
        }
    }
    Ok(())
}
