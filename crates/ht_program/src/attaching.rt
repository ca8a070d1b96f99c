ghost use Rattle.std.specs.Prelude.{◌≡◌};
ghost use Rattle.ht_program.specs.Attaching.{Attaches, AttachesBoth, disks};

use ht_desk::OpenFault;
use ht_outside::{Disk, Failed};
use std::alloc::Global;

/// Attaches the two disks of a journal: the name with `.0` behind it, and with `.1`. It is told that a disk
/// failed, or that there is no memory for a name.
pub fn attach<D: Disk>(
    alloc: Global,
    name: &str,
    first: &mut D,
    second: &mut D,
) -> Result<(), OpenFault>
    ensures { AttachesBoth D.Disk (disks first.old second.old)
        (disks first.new second.new) result }
{
    match attach_one(alloc, name, ".0", first) {
        Ok(()) => attach_one(alloc, name, ".1", second),
        Err(fault) => Err(fault),
    }
}

fn attach_one<D: Disk>(
    alloc: Global,
    name: &str,
    ending: &str,
    disk: &mut D,
) -> Result<(), OpenFault>
    ensures { Attaches D.Disk disk.old disk.new result }
{
    let mut whole = String::new(alloc);
    if whole.push_str(name).is_err() || whole.push_str(ending).is_err() {
        return Err(OpenFault::Memory);
    }
    match disk.attach(whole.as_str()) {
        Ok(()) => Ok(()),
        Err(Failed) => Err(OpenFault::Store),
    }
}
