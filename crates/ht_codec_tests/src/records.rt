ghost use Rattle.ht_base.specs.Records.{record_of};
ghost use Rattle.ht_codec.specs.Records.{IsRecord};

use ht_base::{Bytes, Command, Moment, Name, Op, Record, TaskId};
use ht_codec::{CodecRefusal, read, write};
use std::alloc::Global;
use std::test::Fail;

const TURN: [u8; 10] = [1, 0xe8, 3, 0, 0, 0, 0, 0, 0, 7];

/// At 2000, anna, without a number.
const HEAD: [u8; 15] = [2, 0xd0, 7, 0, 0, 0, 0, 0, 0, 4, b'a', b'n', b'n', b'a', 16];

/// What anna asks of a task, up to the 255th.
fn asked(alloc: Global, task: u8, behind: &[u8]) -> Result<Bytes, Fail> {
    let mut bytes = Bytes::of(alloc, &HEAD)?;
    bytes.extend(&[task, 0, 0, 0])?;
    bytes.extend(behind)?;
    Ok(bytes)
}

// ---- spellings

/// What is read of the bytes, if it is written as the same bytes again.
fn read_and_written(alloc: Global, bytes: &[u8]) -> Result<Option<Record>, Fail> {
    let record = read(alloc, bytes)?;
    let written = write(alloc, &record)?;
    if written.as_slice() == bytes {
        Ok(Some(record))
    } else {
        Ok(None)
    }
}

fn op_of(record: &Option<Record>) -> Option<Op> {
    match record {
        Some(Record::Asked { command, .. }) => Some(command.op()),
        _ => None,
    }
}

fn op_asked(alloc: Global, task: u8, behind: &[u8]) -> Result<Option<Op>, Fail> {
    let bytes = asked(alloc, task, behind)?;
    let record = read_and_written(alloc, bytes.as_slice())?;
    Ok(op_of(&record))
}

const PLAIN: [(u8, Op); 10] = [
    (2, Op::Claim),
    (3, Op::Start),
    (4, Op::Stop),
    (5, Op::Release),
    (9, Op::Activate),
    (12, Op::Suspend),
    (14, Op::Resume),
    (18, Op::Skip),
    (19, Op::Exit),
    (20, Op::Error),
];

#[test]
fn operations_without_fields(rt: HostRuntime) -> Result<(), Fail> {
    for (byte, op) in PLAIN {
        assert_eq!(rt; op_asked(rt.alloc(), 1, &[byte])?, Some(op));
    }
    Ok(())
}

#[test]
fn operations_with_fields(rt: HostRuntime) -> Result<(), Fail> {
    let rows = [
        (b"\x06\x03ben".as_slice(), Op::Delegate),
        (b"\x07\x02\0\x03ben\x01c".as_slice(), Op::Forward),
        (b"\x08\x01\0\x03ben".as_slice(), Op::Nominate),
        (b"\x0a\x01\0\0".as_slice(), Op::SetRole),
        (b"\x0b\x0a".as_slice(), Op::SetPriority),
        (b"\x0d\0\x58\x1b\0\0\0\0\0\0".as_slice(), Op::SuspendUntil),
        (b"\x0d\x01\xe8\x03\0\0\0\0\0\0".as_slice(), Op::SuspendUntil),
        (
            b"\x0f\x01\x01a\x01\xff\xff\xff\xff\xff\xff\xff\xff".as_slice(),
            Op::SetOutput,
        ),
        (b"\x10\x02\x01a\x02\x01\x01b\x02\0".as_slice(), Op::Complete),
        (b"\x11\0".as_slice(), Op::Fail),
        (b"\x11\x01\x03ben".as_slice(), Op::Fail),
        (b"\x15\x04\0soon".as_slice(), Op::AddComment),
        (b"\x16\x01s".as_slice(), Op::InstantiateSubTask),
    ];
    for (behind, op) in rows {
        assert_eq!(rt; op_asked(rt.alloc(), 1, behind)?, Some(op));
    }
    Ok(())
}

#[test]
fn a_turn_has_nine_bytes(rt: HostRuntime) -> Result<(), Fail> {
    let bytes = write(rt.alloc(), &Record::Turn { at: Moment(1000) })?;
    assert_eq!(rt; bytes.as_slice(), &TURN[..9]);
    let turn = read(rt.alloc(), bytes.as_slice())?;
    assert!(rt; matches!(turn, Record::Turn { at: Moment(1000) }));
    Ok(())
}

fn claim_of(caller: Name) -> Record
    ensures { IsRecord (record_of result) }
{
    Record::Asked {
        at: Moment(2000),
        caller,
        retry: None,
        task: TaskId(1),
        command: Command::Claim,
    }
}

#[test]
fn a_claim_is_spelled(rt: HostRuntime) -> Result<(), Fail> {
    let anna = Name::of(b"anna").ok_or("no name")?;
    let bytes = write(rt.alloc(), &claim_of(anna))?;
    let claim = asked(rt.alloc(), 1, &[2])?;
    assert_eq!(rt; bytes.as_slice(), claim.as_slice());
    Ok(())
}

// ---- refusals

fn refusal(alloc: Global, bytes: &[u8]) -> Option<CodecRefusal> {
    read(alloc, bytes).err()
}

#[test]
fn the_first_field_that_fails_is_told(rt: HostRuntime) {
    let rows = [
        (b"".as_slice(), CodecRefusal::Short(0)),
        (b"\x03".as_slice(), CodecRefusal::Tag(0)),
        (&TURN[..8], CodecRefusal::Short(8)),
        (&TURN, CodecRefusal::Trailing(9)),
        (
            b"\x02\0\xdc\x1f\xd2\x77\xe6\0\0".as_slice(),
            CodecRefusal::Range(1),
        ),
        (b"\0\x01\0\x04\0".as_slice(), CodecRefusal::Range(1)),
        (b"\0\0\0\x04\0".as_slice(), CodecRefusal::Short(5)),
        (
            b"\0\x01\0\0\0m\x01\0\x04\0".as_slice(),
            CodecRefusal::Range(6),
        ),
        (
            b"\x02\0\0\0\0\0\0\0\0\x01a\x11".as_slice(),
            CodecRefusal::Range(11),
        ),
        (
            b"\x02\0\0\0\0\0\0\0\0\x01a\0\0\0\0\0".as_slice(),
            CodecRefusal::Range(12),
        ),
    ];
    for (bytes, told) in rows {
        assert_eq!(rt; refusal(rt.alloc(), bytes), Some(told));
    }
}
