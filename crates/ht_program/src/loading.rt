ghost use Rattle.ht_desk.specs.Stepping.{Stands};
ghost use Rattle.ht_program.specs.Working.{LoadsAndTells};

use ht_desk::DeskState;
use ht_load::{load, write_sums};
use ht_outside::{Disk, Failed, Sink};
use ht_serve::Ending;
use std::alloc::Global;

/// Makes so many requests from a seed by the office that is on this disk, and writes their sums.
pub(crate) fn load_office<D: Disk, K: Sink>(
    alloc: Global,
    mut desk: DeskState,
    disk: &mut D,
    seed: u64,
    count: u32,
    output: &mut K,
) -> Ending
    requires { Stands D.Disk desk disk.old }
    ensures { LoadsAndTells D.Disk seed count desk disk.old disk.new (K.sink_state output.old)
        (K.sink_state output.new) result }
{
    let sums = load(alloc, &mut desk, disk, seed, count);
    match write_sums(sums, output) {
        Ok(()) => Ending::Done,
        Err(Failed) => Ending::WriteFault,
    }
}
