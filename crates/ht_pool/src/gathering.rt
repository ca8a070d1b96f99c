ghost use Rattle.std.specs.Prelude.{◌≡◌, map};
ghost use Rattle.ht_shared.specs.Passes.{IsOf};
ghost use Rattle.ht_workers.specs.declared.working.WorkEnd.TheVariants as ended;
ghost use Rattle.ht_pool.specs.Gathering as spec;
ghost use Rattle.ht_pool.specs.Gathering.{AreOf, JoinsForks, JoinsPasses, doors_of, endings_of, passes_of, worker_of, worst};

use crate::worker::Worker;
use ht_doors::Door;
use ht_outside::Clock;
use ht_serve::TakesEvents;
use ht_shared::{Pass, Shared};
use ht_workers::WorkEnd;

/// Joins the workers' passes into the first one, and their doors into the door, in their order. Answers
/// how the worst of them ended.
pub(crate) fn gather<T: TakesEvents + Drop, D: Door, C: Clock>(
    shared: &Shared<T>,
    first: &mut Pass<T>,
    workers: Vec<Worker<T, D, C>>,
    door: &mut D,
) -> WorkEnd
    requires first { IsOf shared.now first.old }
    requires others { AreOf shared.now
        (map (λ w. worker_of w.pass (D.door_state w.door) w.share w.ending) workers.items) }
    ensures passes { JoinsPasses first.old
        (passes_of (map (λ w. worker_of w.pass (D.door_state w.door) w.share w.ending)
        workers.items)) first.new }
    ensures doors { JoinsForks (D.door_state door.old)
        (doors_of (map (λ w. worker_of w.pass (D.door_state w.door) w.share w.ending)
        workers.items)) (D.door_state door.new) }
    ensures ending { result ≡ worst ended.Done
        (endings_of (map (λ w. worker_of w.pass (D.door_state w.door) w.share w.ending)
        workers.items)) }
{
    let mut end = WorkEnd::Done;
    for worker in workers {
        let Worker {
            pass,
            door: fork,
            clock: _,
            share: _,
            ending,
        } = worker;
        shared.join(first, pass);
        door.join(fork);
        end = worse(end, ending);
    }
    end
}

// A door's fault goes before want of memory.
fn worse(one: WorkEnd, other: WorkEnd) -> WorkEnd
    ensures { result ≡ spec.worse one other }
{
    match (one, other) {
        (WorkEnd::Door, _) | (_, WorkEnd::Door) => WorkEnd::Door,
        (WorkEnd::Memory, _) | (_, WorkEnd::Memory) => WorkEnd::Memory,
        (WorkEnd::Done, WorkEnd::Done) => WorkEnd::Done,
    }
}
