use crate::appending::{bytes_of, disk};
use ht_journal::{Body, JournalFault, open};
use ht_outside::Disk;
use std::alloc::{AllocError, Global};
use std::test::Fail;

const HEADER: &[u8] = b"HTJ1\r\n\x1a\n";

// A file of the header and these bytes.
fn file(alloc: Global, behind: &[u8]) -> Result<Vec<u8>, AllocError> {
    let mut file = HEADER.to_vec(alloc)?;
    file.extend_from_slice(behind)?;
    Ok(file)
}

// The bodies of these numbers, up to the first that isn't there.
fn bodies_of<D: Disk>(
    alloc: Global,
    disk: &mut D,
    numbers: &[u32],
) -> Result<Vec<Body>, JournalFault> {
    let mut bodies = Vec::new(alloc);
    let mut journal = open(alloc, disk, 1_000_000)?;
    for n in numbers {
        if *n < 1 || *n > journal.count() {
            return Ok(bodies);
        }
        bodies.push(journal.body(alloc, disk, *n)?)?;
    }
    Ok(bodies)
}

// A file of so many bodies of 20 bytes, each with its number in front.
fn many(alloc: Global, count: u32) -> Result<Vec<u8>, AllocError> {
    let mut file = file(alloc, b"")?;
    for n in 0..count {
        file.extend_from_slice(b"\x01\x14\0\0\0")?;
        file.extend_from_slice(&n.to_le_bytes())?;
        file.extend_from_slice(&[9; 16])?;
    }
    file.push(0)?;
    Ok(file)
}

#[test]
fn bodies_are_read_in_any_order(rt: HostRuntime) -> Result<(), Fail> {
    let alloc = rt.alloc();
    let mut disk = disk(alloc, &many(alloc, 5_000)?, &[])?;
    let numbers = [1, 2, 5_000, 2_622, 2_623, 2_621, 1, 5_001];
    let bodies = bodies_of(alloc, &mut disk, &numbers)?;
    assert_eq!(rt; bodies.len(), 7);
    for (n, body) in numbers.iter().zip(&bodies) {
        let bytes = body.bytes.as_slice();
        assert_eq!(rt; body.at.wrapping_add(12), 25 * u64::from(*n));
        assert!(rt; bytes.len() == 20 && bytes.starts_with(&n.wrapping_sub(1).to_le_bytes()));
    }
    Ok(())
}

// A file, the calls of the disk that fail, the fault, and the file afterwards. Of a file that is begun,
// call 3 writes and call 4 syncs.
const REFUSED: [(&[u8], &[u32], JournalFault, &[u8]); 8] = [
    (
        b"HTJ2\r\n\x1a\n\0\0",
        &[],
        JournalFault::Damaged(0),
        b"HTJ2\r\n\x1a\n\0\0",
    ),
    (
        b"a foreign text",
        &[],
        JournalFault::Damaged(0),
        b"a foreign text",
    ),
    (
        b"HTJ1\r\n\x1a\n\x01\x02\0\0\0ab",
        &[],
        JournalFault::Damaged(8),
        b"HTJ1\r\n\x1a\n\x01\x02\0\0\0ab",
    ),
    (
        b"a foreign text",
        &[1],
        JournalFault::Store,
        b"a foreign text",
    ),
    (
        b"a foreign text",
        &[2],
        JournalFault::Store,
        b"a foreign text",
    ),
    (
        b"a foreign text",
        &[3],
        JournalFault::Store,
        b"a foreign text",
    ),
    (b"short", &[3], JournalFault::Store, b"short"),
    (b"short", &[4], JournalFault::Store, b"HTJ1\r\n\x1a\n\0"),
];

#[test]
fn a_refused_opening_leaves_the_file(rt: HostRuntime) -> Result<(), Fail> {
    let alloc = rt.alloc();
    for (bytes, failing, want, left) in REFUSED {
        let mut disk = disk(alloc, bytes, failing)?;
        let fault = open(alloc, &mut disk, 1_000).err();
        assert_eq!(rt; fault, Some(want), "{bytes:?} {failing:?}");
        let now = bytes_of(alloc, &mut disk)?;
        assert_eq!(rt; now.as_slice(), left, "{bytes:?} {failing:?}");
    }
    Ok(())
}
