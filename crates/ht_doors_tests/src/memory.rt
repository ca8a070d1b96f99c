use crate::echoing::echo;
use ht_base::{Bytes, Memory};
use ht_doors::{Door, MemoryDoor};
use ht_outside::Failed;
use std::alloc::Global;
use std::sync::Wait;
use std::test::Fail;

fn door<'a, R: Wait>(
    rt: &'a R,
    alloc: Global,
    links: &[&[u8]],
    failing: &[u32],
) -> Result<MemoryDoor<'a, R>, Memory> {
    let mut bytes = Vec::new(alloc);
    for link in links {
        bytes.push(Bytes::of(alloc, link)?)?;
    }
    MemoryDoor::make(rt, alloc, bytes, Vec::from_slice(alloc, failing)?)
}

// Whether this was written to the link of this place.
fn is_written<R: Wait>(door: &MemoryDoor<R>, place: u32, want: &[u8]) -> Result<bool, Memory> {
    Ok(door.written(place)?.as_slice() == want)
}

#[test]
fn calls_of_a_door_in_memory_fail_as_told(rt: HostRuntime) -> Result<(), Fail> {
    let mut door = door(&rt, rt.alloc(), &[b"one", b"two"], &[2, 4])?;
    assert_eq!(rt; door.listen(0), Ok(()));
    assert_eq!(rt; echo(&mut door), Err(Failed), "the second call");
    assert_eq!(rt; echo(&mut door), Err(Failed), "the fourth call");
    assert_eq!(rt; echo(&mut door), Ok(()));
    assert_eq!(rt; echo(&mut door), Err(Failed), "past the last link");
    assert!(rt; is_written(&door, 0, b"")?, "this link was dropped");
    assert!(rt; is_written(&door, 1, b"two")?);
    assert!(rt; is_written(&door, 2, b"")?, "there is no such link");
    Ok(())
}

#[test]
fn a_fork_takes_links_of_the_same_list(rt: HostRuntime) -> Result<(), Fail> {
    let mut door = door(&rt, rt.alloc(), &[b"one", b"two", b"three"], &[7])?;
    let mut fork = door.fork()?;
    assert_eq!(rt; echo(&mut door), Ok(()));
    assert_eq!(rt; echo(&mut fork), Ok(()));
    assert_eq!(rt; echo(&mut door), Ok(()));
    assert_eq!(rt; echo(&mut fork), Err(Failed), "no link is left");
    assert!(rt;
        is_written(&door, 1, b"")?,
        "it was handed back to the fork"
    );
    door.join(fork);
    assert!(rt; is_written(&door, 0, b"one")?);
    assert!(rt; is_written(&door, 1, b"two")?);
    assert!(rt; is_written(&door, 2, b"three")?);
    Ok(())
}
