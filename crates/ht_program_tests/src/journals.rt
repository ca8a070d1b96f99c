use crate::runs::{CLAIM, CREATE, GET, NO_TEXTS, Office, Ran, disk_of, run, run_on, source_of};
use ht_outside::{Disk, MemoryDisk};
use ht_program::Status;
use ht_samples::{MODELS, PEOPLE};
use std::alloc::Global;
use std::test::Fail;

const LINE: &str = "run --from 1000 --step 1000 --journal j";

// A run of the built-in office on these disks.
fn run_with(
    alloc: Global,
    line: &str,
    first: &mut MemoryDisk,
    second: &mut MemoryDisk,
    input: &str,
) -> Result<Ran, Fail> {
    let source = source_of(alloc, input, &[])?;
    run_on(alloc, line, &NO_TEXTS, first, second, source, &[])
}

fn length(disk: &mut MemoryDisk) -> Option<u64> {
    disk.len().ok()
}

fn byte_at(disk: &mut MemoryDisk, at: u64) -> Option<u8> {
    let mut byte = [0];
    match disk.read(at, &mut byte) {
        Ok(1) => Some(byte[0]),
        _ => None,
    }
}

#[test]
fn a_journal_is_begun_with_the_texts(rt: HostRuntime) -> Result<(), Fail> {
    let mut first = disk_of(rt.alloc(), &[])?;
    let mut second = disk_of(rt.alloc(), &[])?;
    let line = "run --from 0 --step 0 --journal j";
    let ran = run_with(rt.alloc(), line, &mut first, &mut second, "")?;
    assert_eq!(rt; ran.status, Status(0));
    assert!(rt; ran.output.written().is_empty());
    assert!(rt; ran.complaints.written().is_empty());
    assert_eq!(rt; length(&mut first), Some(451));
    assert_eq!(rt; byte_at(&mut first, 8), Some(1));
    assert_eq!(rt; byte_at(&mut first, 450), Some(0));
    assert_eq!(rt; length(&mut second), Some(0));
    Ok(())
}

#[test]
fn two_runs_on_one_journal_are_one_run(rt: HostRuntime) -> Result<(), Fail> {
    let mut first = disk_of(rt.alloc(), &[])?;
    let mut second = disk_of(rt.alloc(), &[])?;
    let one = run_with(rt.alloc(), LINE, &mut first, &mut second, CREATE)?;
    let line = "run --journal j --step 1000 --from 2000";
    let rest = format!(in rt.alloc(); "{CLAIM}{GET}")?;
    let other = run_with(rt.alloc(), line, &mut first, &mut second, rest.as_str())?;
    let input = format!(in rt.alloc(); "{CREATE}{CLAIM}{GET}")?;
    let whole = run(rt.alloc(), input.as_str())?;
    assert_eq!(rt; one.status, Status(0));
    assert_eq!(rt; other.status, Status(0));
    let mut both = Vec::from_slice(rt.alloc(), one.output.written())?;
    both.extend_from_slice(other.output.written())?;
    assert!(rt; !one.output.written().is_empty());
    assert_eq!(rt; both.as_slice(), whole.output.written());
    Ok(())
}

#[test]
fn a_read_and_a_refusal_leave_the_journal_as_it_is(rt: HostRuntime) -> Result<(), Fail> {
    let mut first = disk_of(rt.alloc(), &[])?;
    let mut second = disk_of(rt.alloc(), &[])?;
    let input = format!(in rt.alloc(); "{CREATE}{CLAIM}")?;
    let _ = run_with(rt.alloc(), LINE, &mut first, &mut second, input.as_str())?;
    let before = length(&mut first);
    let line = "run --from 9000 --step 0 --journal j";
    let input = format!(in rt.alloc(); "{GET}{CLAIM}")?;
    let ran = run_with(rt.alloc(), line, &mut first, &mut second, input.as_str())?;
    assert_eq!(rt; ran.status, Status(0));
    assert!(rt; before.is_some());
    assert_eq!(rt; length(&mut first), before);
    Ok(())
}

#[test]
fn a_damaged_journal_is_told(rt: HostRuntime) -> Result<(), Fail> {
    let mut first = disk_of(rt.alloc(), &[])?;
    let mut second = disk_of(rt.alloc(), &[])?;
    let _ = run_with(rt.alloc(), LINE, &mut first, &mut second, CREATE)?;
    // The first byte of the second body, which tells what record it is.
    assert!(rt; first.write_at(455, &[250]).is_ok());
    let ran = run_with(rt.alloc(), LINE, &mut first, &mut second, GET)?;
    assert_eq!(rt; ran.status, Status(5));
    assert!(rt; ran.output.written().is_empty());
    assert_eq!(rt;
        ran.complaints.written(),
        b"journal: damaged at 455\n".as_slice()
    );
    Ok(())
}

#[test]
fn a_journal_of_other_texts_is_told(rt: HostRuntime) -> Result<(), Fail> {
    let mut first = disk_of(rt.alloc(), &[])?;
    let mut second = disk_of(rt.alloc(), &[])?;
    let _ = run_with(rt.alloc(), LINE, &mut first, &mut second, CREATE)?;
    let office = Office {
        texts: &[("m", MODELS), ("p", PEOPLE)],
        failing: &[],
    };
    let line = "run --from 0 --step 0 --models m --people p --journal j";
    let source = source_of(rt.alloc(), GET, &[])?;
    let ran = run_on(
        rt.alloc(),
        line,
        &office,
        &mut first,
        &mut second,
        source,
        &[],
    )?;
    assert_eq!(rt; ran.status, Status(5));
    assert_eq!(rt;
        ran.complaints.written(),
        b"journal: texts differ\n".as_slice()
    );
    Ok(())
}

#[test]
fn a_disk_that_fails_is_told_with_a_journal_alone(rt: HostRuntime) -> Result<(), Fail> {
    for (ones, others) in [([1].as_slice(), [].as_slice()), (&[], &[1]), (&[2], &[])] {
        let mut first = disk_of(rt.alloc(), ones)?;
        let mut second = disk_of(rt.alloc(), others)?;
        let ran = run_with(rt.alloc(), LINE, &mut first, &mut second, CREATE)?;
        assert_eq!(rt; ran.status, Status(6));
        assert!(rt; ran.output.written().is_empty());
        assert_eq!(rt; ran.complaints.written(), b"journal: store\n".as_slice());
    }
    let mut first = disk_of(rt.alloc(), &[1, 2, 3])?;
    let mut second = disk_of(rt.alloc(), &[1, 2, 3])?;
    let line = "run --from 1000 --step 1000";
    let ran = run_with(rt.alloc(), line, &mut first, &mut second, CREATE)?;
    assert_eq!(rt; ran.status, Status(0));
    assert!(rt; ran.complaints.written().is_empty());
    Ok(())
}

#[test]
fn a_limit_has_bounds(rt: HostRuntime) -> Result<(), Fail> {
    for (limit, status) in [
        ("1048575", 2),
        ("1048576", 0),
        ("4294967297", 2),
        ("01048576", 2),
    ] {
        let mut first = disk_of(rt.alloc(), &[])?;
        let mut second = disk_of(rt.alloc(), &[])?;
        let line = format!(in rt.alloc(); "{LINE} --limit {limit}")?;
        let ran = run_with(rt.alloc(), line.as_str(), &mut first, &mut second, "")?;
        assert_eq!(rt; ran.status, Status(status), "{limit}");
    }
    Ok(())
}
