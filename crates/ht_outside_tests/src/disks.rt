use ht_base::{Bytes, Memory};
use ht_outside::{Disk, Failed, FileDisk, MemoryDisk, RoomDisk};
use std::alloc::Global;
use std::rt::Clock;
use std::test::Fail;
use std::time::Duration;
use std::{env, fs, process, thread};

fn disk(alloc: Global, bytes: &[u8], failing: &[u32]) -> Result<MemoryDisk, Memory> {
    let failing = Vec::from_slice(alloc, failing)?;
    MemoryDisk::make(alloc, Bytes::of(alloc, bytes)?, failing)
}

// Writes, asks for the length and reads the whole of it, through any disk.
fn write_and_show<D: Disk + Send>(
    disk: &mut D,
    at: u64,
    piece: &[u8],
    into: &mut [u8],
) -> Result<usize, Failed> {
    disk.write_at(at, piece)?;
    disk.len()?;
    disk.read(0, into)
}

// Whether a disk holds these bytes and no more.
fn holds<D: Disk + Send>(disk: &mut D, want: &[u8]) -> bool {
    let mut into = [0; 16];
    let Ok(length) = disk.len() else {
        return false;
    };
    let Ok(count) = disk.read(0, &mut into) else {
        return false;
    };
    length == want.len() as u64 && into.get(..count) == Some(want)
}

#[test]
fn a_disk_in_memory_is_written_in_place(rt: HostRuntime) -> Result<(), Fail> {
    let mut disk = disk(rt.alloc(), b"abc", &[])?;
    let mut into = [0; 8];
    assert_eq!(rt; disk.read(1, &mut into), Ok(2));
    assert_eq!(rt; write_and_show(&mut disk, 1, b"XY", &mut into), Ok(3));
    assert_eq!(rt; &into[..3], b"aXY".as_slice());
    assert_eq!(rt; write_and_show(&mut disk, 2, b"Zde", &mut into), Ok(5));
    assert_eq!(rt; &into[..5], b"aXZde".as_slice());
    assert_eq!(rt; write_and_show(&mut disk, 7, b"g", &mut into), Ok(8));
    assert_eq!(rt; &into, b"aXZde\0\0g");
    assert_eq!(rt; disk.read(9, &mut into), Ok(0));
    assert_eq!(rt; disk.attach("journal.0"), Ok(()));
    assert!(rt; holds(&mut disk, b"aXZde\0\0g"));
    Ok(())
}

// Writes one byte in the middle, and lengthens the file past a gap.
fn unsynced(alloc: Global) -> Result<MemoryDisk, Fail> {
    let mut disk = disk(alloc, b"abcd", &[])?;
    disk.write_at(1, b"XY")?;
    disk.write_at(6, b"Z")?;
    Ok(disk)
}

#[test]
fn a_crash_leaves_an_image(rt: HostRuntime) -> Result<(), Fail> {
    let mut disk = unsynced(rt.alloc())?;
    assert!(rt; holds(&mut disk.crash(0)?, b"abcd"));
    assert!(rt; holds(&mut disk.crash(1)?, b"aXYd\0\0Z"));
    assert!(rt; holds(&mut disk.crash(2)?, b"a\x01\x01d\x01\x01\x01"));
    assert_eq!(rt; disk.sync(), Ok(()));
    for pick in 0..3 {
        assert!(rt; holds(&mut disk.crash(pick)?, b"aXYd\0\0Z"), "pick {pick}");
    }
    assert_eq!(rt; disk.write_at(0, b"V"), Ok(()));
    assert!(rt; holds(&mut disk.crash(0)?, b"aXYd\0\0Z"));
    assert!(rt; holds(&mut disk.crash(2)?, b"\x01XYd\0\0Z"));
    Ok(())
}

#[test]
fn a_disk_with_room_fails_past_it(rt: HostRuntime) -> Result<(), Fail> {
    let mut disk = RoomDisk::make(rt.alloc(), 5)?;
    let mut into = [0; 8];
    assert_eq!(rt; write_and_show(&mut disk, 0, b"abc", &mut into), Ok(3));
    assert_eq!(rt; disk.write_at(3, b"def"), Err(Failed));
    assert_eq!(rt; disk.write_at(u64::MAX, b"d"), Err(Failed));
    assert_eq!(rt; write_and_show(&mut disk, 4, b"e", &mut into), Ok(5));
    assert_eq!(rt; &into[..5], b"abc\0e".as_slice());
    assert_eq!(rt; disk.sync(), Ok(()));
    assert_eq!(rt; disk.attach("journal.0"), Ok(()));
    assert!(rt; holds(&mut disk, b"abc\0e"));
    Ok(())
}

// What is written into a file: two pages and more, with a piece over the end of the first, and one
// past the end.
fn write_pages<D: Disk + Send>(disk: &mut D, name: &str, pages: &[u8]) -> Result<u64, Failed> {
    disk.attach(name)?;
    disk.write_at(0, pages)?;
    disk.write_at(4094, b"middle")?;
    disk.write_at(9002, b"end")?;
    disk.sync()?;
    disk.len()
}

// Asks for the length of a file that another object wrote, reads it whole, and reads past its end.
fn read_pages<D: Disk + Send>(
    disk: &mut D,
    name: &str,
    into: &mut [u8],
) -> Result<(u64, usize, usize), Failed> {
    disk.attach(name)?;
    let length = disk.len()?;
    let past = disk.read(9005, &mut [0; 4])?;
    Ok((length, disk.read(0, into)?, past))
}

#[test]
fn a_file_is_a_disk(rt: HostRuntime) -> Result<(), Fail> {
    let alloc = rt.alloc();
    let number = process::id(rt.process());
    let name = format!(in alloc; "ht_outside-{number}.disk")?;
    let path = env::temp_dir(&rt)?.join(alloc, name.as_str())?;
    let pages = vec![in alloc; b'x'; 9000]?;
    let mut into = vec![in alloc; 0; 9100]?;
    let mut first = FileDisk::new(&rt);
    let length = write_pages(&mut first, path.as_str(), &pages);
    let again = first.attach(path.as_str());
    let mut second = FileDisk::new(&rt);
    let locked = second.attach(path.as_str());
    drop(first);
    let read = read_pages(&mut second, path.as_str(), &mut into);
    fs::remove_file(&rt, path.as_path())?;
    assert_eq!(rt; length, Ok(9005));
    assert_eq!(rt; again, Ok(()));
    assert_eq!(rt; locked, Err(Failed));
    assert_eq!(rt; read, Ok((9005, 9005, 0)));
    assert_eq!(rt; &into[4092..4102], b"xxmiddlexx".as_slice());
    assert_eq!(rt; &into[8998..9005], b"xx\0\0end".as_slice());
    Ok(())
}

// Attaches a file whose lock another program may have, with up to 5,000 trials, a millisecond apart.
fn attach_soon<D: Disk + Send>(clock: &impl Clock, disk: &mut D, name: &str) -> bool {
    for _ in 0..5_000 {
        if disk.attach(name).is_ok() {
            return true;
        }
        thread::sleep(clock, Duration::from_millis(1));
    }
    false
}

// A device that takes no bytes and can't be synced, and then a file that can.
#[test]
fn a_sync_that_failed_fails_for_good(rt: HostRuntime) -> Result<(), Fail> {
    let alloc = rt.alloc();
    let number = process::id(rt.process());
    let name = format!(in alloc; "ht_outside-{number}.lost")?;
    let path = env::temp_dir(&rt)?.join(alloc, name.as_str())?;
    let mut disk = FileDisk::new(&rt);
    let attached = attach_soon(&rt, &mut disk, "/dev/full");
    let full = [disk.write_at(0, b"x"), disk.sync()];
    let plain = [
        disk.attach(path.as_str()),
        disk.write_at(0, b"x"),
        disk.sync(),
    ];
    fs::remove_file(&rt, path.as_path())?;
    assert!(rt; attached, "/dev/full is locked");
    assert_eq!(rt; full, [Err(Failed), Err(Failed)]);
    assert_eq!(rt; plain, [Ok(()), Ok(()), Err(Failed)]);
    Ok(())
}
