ghost use Rattle.std.specs.Prelude.{◌^◌, ◌≤◌, ℕ, List};
ghost use Rattle.ht_journal.specs.Keeping.{IsKept};

use ht_base::Bytes;
use ht_journal::{AppendRefusal, Body, JournalFault, JournalState, Settled, open};
use ht_outside::{Disk, MemoryDisk};
use std::alloc::Global;
use std::test::Fail;

const LIMIT: u64 = 4_000_000;

// A disk of these bytes, of which the calls with these numbers fail.
pub(crate) fn disk(alloc: Global, bytes: &[u8], failing: &[u32]) -> Result<MemoryDisk, Fail> {
    let failing = Vec::from_slice(alloc, failing)?;
    Ok(MemoryDisk::make(alloc, Bytes::of(alloc, bytes)?, failing)?)
}

// The bodies that an opening finds, each with a point behind it. Each is read into the place of the one
// before.
pub(crate) fn found<D: Disk>(alloc: Global, disk: &mut D) -> Result<Vec<u8>, JournalFault> {
    let mut text = Vec::new(alloc);
    let mut journal = open(alloc, disk, LIMIT)?;
    let mut body = Body {
        at: 0,
        bytes: Bytes::new(alloc),
    };
    for n in 0..journal.count() {
        journal.read_body(alloc, disk, n + 1, &mut body)?;
        text.extend_from_slice(body.bytes.as_slice())?;
        text.push(b'.')?;
    }
    Ok(text)
}

// The bodies that are found after a crash.
pub(crate) fn left(alloc: Global, disk: &MemoryDisk, pick: u8) -> Result<Vec<u8>, Fail>
    requires { pick ≤ 2 }
{
    Ok(found(alloc, &mut disk.crash(pick)?)?)
}

// Appends a body, where nothing is in doubt.
fn added<D: Disk>(
    journal: &mut JournalState,
    disk: &mut D,
    body: &[u8],
) -> Option<Result<(), AppendRefusal>>
    requires { (bodies : List (List ℕ))
        × IsKept D.Disk bodies journal.old disk.old }
    ensures { (bodies : List (List ℕ))
        × IsKept D.Disk bodies journal.new disk.new }
{
    if journal.doubtful() {
        return None;
    }
    Some(journal.append(disk, body))
}

// Opens a journal and appends two bodies.
fn append_two<D: Disk>(
    alloc: Global,
    disk: &mut D,
    limit: u64,
    bodies: [&[u8]; 2],
) -> Result<[Option<Result<(), AppendRefusal>>; 2], JournalFault>
    requires { limit ≤ 2 ^ 32 }
{
    let mut journal = open(alloc, disk, limit)?;
    let [first, second] = bodies;
    let first = added(&mut journal, disk, first);
    let second = added(&mut journal, disk, second);
    Ok([first, second])
}

// Opens a journal, appends a body, and looks into a doubt, if there is one.
fn append_and_settle<D: Disk>(alloc: Global, disk: &mut D, body: &[u8]) -> Option<Settled> {
    let Ok(mut journal) = open(alloc, disk, LIMIT) else {
        return None;
    };
    let _ = journal.append(disk, body);
    if journal.doubtful() {
        return Some(journal.settle(disk));
    }
    None
}

#[test]
fn a_journal_has_a_limit(rt: HostRuntime) -> Result<(), Fail> {
    let alloc = rt.alloc();
    let longest = vec![in alloc; 7; 1_048_577]?;
    let full = Some(Err(AppendRefusal::Full(40)));
    let rows: [(
        u64,
        [&[u8]; 2],
        [Option<Result<(), AppendRefusal>>; 2],
        usize,
    ); 4] = [
        (40, [&[7; 26], &[7]], [Some(Ok(())), full], 27),
        (
            40,
            [&[7; 27], &[7; 26]],
            [Some(Err(AppendRefusal::Full(9))), Some(Ok(()))],
            27,
        ),
        (
            40,
            [&longest, &[7; 26]],
            [Some(Err(AppendRefusal::TooLong)), Some(Ok(()))],
            27,
        ),
        (
            LIMIT,
            [&longest[1..], b""],
            [Some(Ok(())), Some(Ok(()))],
            1_048_578,
        ),
    ];
    for (limit, bodies, want, size) in rows {
        let mut disk = disk(alloc, b"", &[])?;
        if limit <= LIMIT {
            assert_eq!(rt; append_two(alloc, &mut disk, limit, bodies)?, want);
        }
        assert_eq!(rt; found(alloc, &mut disk)?.len(), size);
    }
    Ok(())
}

// Opens a journal whose file is lengthened ahead, and appends two bodies.
fn append_two_ahead<D: Disk>(alloc: Global, disk: &mut D, limit: u64) -> Result<(), JournalFault>
    requires { limit ≤ 2 ^ 32 }
{
    let mut journal = open(alloc, disk, limit)?;
    journal.lengthen_ahead(disk);
    added(&mut journal, disk, b"a");
    added(&mut journal, disk, b"b");
    Ok(())
}

// The calls of the disk: 1 to 4 begin the file, 5 lengthens it, 6 to 9 append.
#[test]
fn a_file_is_lengthened_ahead(rt: HostRuntime) -> Result<(), Fail> {
    let alloc = rt.alloc();
    let rows: [(u64, &[u32], &str, u64); 4] = [
        (LIMIT, &[], "a.b.", 65_551),
        (1_000, &[], "a.b.", 1_000),
        (LIMIT, &[5], "b.", 65_551),
        (LIMIT, &[6], "b.", 65_551),
    ];
    for (limit, failing, bodies, length) in rows {
        let mut disk = disk(alloc, b"", failing)?;
        if limit <= LIMIT {
            append_two_ahead(alloc, &mut disk, limit)?;
        }
        assert_eq!(rt; disk.len()?, length);
        assert_eq!(rt; found(alloc, &mut disk)?.as_slice(), bodies.as_bytes());
    }
    Ok(())
}

// The bytes of a disk's file, of which there are at most 64.
pub(crate) fn bytes_of<D: Disk>(alloc: Global, disk: &mut D) -> Result<Vec<u8>, Fail> {
    let mut into = [0; 64];
    let given = disk.read(0, &mut into)?;
    Ok(Vec::from_slice(alloc, &into[..given])?)
}

#[test]
fn each_byte_of_a_file(rt: HostRuntime) -> Result<(), Fail> {
    let alloc = rt.alloc();
    let mut disk = disk(alloc, b"HTJ1\r", &[])?;
    let added = append_two(alloc, &mut disk, LIMIT, [b"one", b""])?;
    assert_eq!(rt; added, [Some(Ok(())), Some(Ok(()))]);
    let bytes = bytes_of(alloc, &mut disk)?;
    let want = b"HTJ1\r\n\x1a\n\x01\x03\0\0\0one\x01\0\0\0\0\0";
    assert_eq!(rt; bytes.as_slice(), want.as_slice());
    Ok(())
}

// The calls of the disk: 1 to 4 begin the file, 5 to 8 append, and two more look into a doubt.
#[test]
fn a_doubt_comes_where_the_gate_was_written(rt: HostRuntime) -> Result<(), Fail> {
    let alloc = rt.alloc();
    let rows: [(&[u32], Option<Settled>, &str); 8] = [
        (&[], None, "a."),
        (&[5], None, ""),
        (&[6], None, ""),
        (&[7], Some(Settled::Dropped), ""),
        (&[8], Some(Settled::Kept), "a."),
        (&[7, 8], Some(Settled::Store), ""),
        (&[8, 9], Some(Settled::Store), "a."),
        (&[8, 10], Some(Settled::Store), "a."),
    ];
    for (failing, settled, bodies) in rows {
        let mut disk = disk(alloc, b"", failing)?;
        assert_eq!(rt;
            append_and_settle(alloc, &mut disk, b"a"),
            settled,
            "{failing:?}"
        );
        assert_eq!(rt;
            found(alloc, &mut disk)?.as_slice(),
            bodies.as_bytes(),
            "{failing:?}"
        );
    }
    Ok(())
}

// A file with a closed gate behind one body.
const ONE_BODY: &[u8] = b"HTJ1\r\n\x1a\n\x01\x01\0\0\0z\0";

// A file, the calls of the disk that fail, the one that it stops at, and the bodies that each pick of
// a crash leaves. Where the file has a body, calls 1 to 3 open it, and 4 to 7 append.
const CRASHES: [(&[u8], &[u32], u32, [&str; 3]); 17] = [
    (b"", &[], 1, ["", "", ""]),
    (b"", &[], 2, ["", "", ""]),
    (b"", &[], 3, ["", "", ""]),
    (b"", &[], 4, ["", "", ""]),
    (b"", &[], 5, ["", "", ""]),
    (b"", &[], 6, ["", "", ""]),
    (b"", &[], 7, ["", "", ""]),
    (b"", &[], 8, ["", "a.", "a."]),
    (b"", &[], 9, ["a.", "a.", "a."]),
    (b"", &[8], 9, ["", "a.", "a."]),
    (b"", &[8], 10, ["a.", "a.", "a."]),
    (b"", &[7], 9, ["", "", ""]),
    (ONE_BODY, &[], 4, ["z.", "z.", "z."]),
    (ONE_BODY, &[], 5, ["z.", "z.", "z."]),
    (ONE_BODY, &[], 6, ["z.", "z.", "z."]),
    (ONE_BODY, &[], 7, ["z.", "z.a.", "z.a."]),
    (ONE_BODY, &[], 8, ["z.a.", "z.a.", "z.a."]),
];

#[test]
fn a_crash_leaves_the_body_or_not(rt: HostRuntime) -> Result<(), Fail> {
    let alloc = rt.alloc();
    for (bytes, failing, stop, bodies) in CRASHES {
        let mut disk = disk(alloc, bytes, failing)?;
        disk.stop(stop);
        append_and_settle(alloc, &mut disk, b"a");
        for pick in 0..3 {
            let left = left(alloc, &disk, pick)?;
            let bodies = bodies[usize::from(pick)];
            assert_eq!(rt;
                left.as_slice(),
                bodies.as_bytes(),
                "{bytes:?} {failing:?} {stop} {pick}"
            );
        }
    }
    Ok(())
}
