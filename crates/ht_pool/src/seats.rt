ghost use Rattle.std.specs.Prelude.{◌≡◌, ◌+◌, ◌<◌, ◌≤◌, [], map, length, IfOk, IfErr};
ghost use Rattle.std.specs.Prelude.{vec_capacity};
ghost use Rattle.ht_shared.specs.Passes.{IsOf, given_by};
ghost use Rattle.ht_pool.specs.Gathering.{IsCause, gave, seat_of, seats_to, staff_of, worker_of};

use crate::Crew;
use crate::worker::{Seat, Worker};
use ht_doors::Door;
use ht_outside::Clock;
use ht_serve::TakesEvents;
use ht_shared::{Pass, Shared};
use ht_workers::WorkEnd;
use std::alloc::Global;

/// A seat for each worker, with forks of the door and of the clock. Or why a crew can't begin.
pub(crate) fn seats_of<D: Door, C: Clock>(
    alloc: Global,
    crew: &Crew,
    door: &mut D,
    clock: &C,
) -> Result<Vec<Seat<D, C>>, WorkEnd>
    ensures links { (D.door_state door.new).links ≡ (D.door_state door.old).links }
    ensures back { (D.door_state door.new).back ≡ (D.door_state door.old).back }
    ensures faults { (D.door_state door.old).faults ≤ (D.door_state door.new).faults }
    ensures seats { IfOk result (λ v.
        map (λ s. seat_of (D.door_state s.door) s.share) v.items
        ≡ seats_to crew.now.workers crew.now.connections (D.door_state door.old)
        crew.now.workers) }
    ensures count { IfOk result (λ v. length v.items ≡ crew.now.workers) }
    ensures cause { IfErr result
        (IsCause (D.door_state door.old).faults (D.door_state door.new).faults) }
{
    let mut seats = Vec::new(alloc);
    for place in 0..crew.workers {
        let Ok(fork) = door.fork() else {
            return Err(WorkEnd::Door);
        };
        let seat = Seat {
            door: fork,
            clock: clock.fork(),
            share: crew.share(place),
        };
        if seats.push(seat).is_err() {
            return Err(WorkEnd::Memory);
        }
    }
    Ok(seats)
}

/// Gives each seat a pass, in their order. There is room for the workers.
pub(crate) fn staff<T: TakesEvents + Drop, D: Door, C: Clock>(
    shared: &Shared<T>,
    first: &mut Pass<T>,
    seats: Vec<Seat<D, C>>,
    workers: &mut Vec<Worker<T, D, C>>,
)
    requires pass { IsOf shared.now first.old }
    requires first { first.old.number ≡ 0 }
    requires few { first.old.given + length seats.items < 4294967295 }
    requires none { workers.old.items ≡ [] }
    requires room { length seats.items ≤ vec_capacity workers.old }
    ensures staff { map (λ w. worker_of w.pass (D.door_state w.door) w.share w.ending)
        workers.new.items
        ≡ staff_of first.old (map (λ s. seat_of (D.door_state s.door) s.share) seats.items) }
    ensures given { first.new ≡ gave first.old (length seats.items) }
{
    for seat in seats {
        let Seat { door, clock, share } = seat;
        let pass = give(shared, first);
        let worker = Worker {
            pass,
            door,
            clock,
            share,
            ending: WorkEnd::Done,
        };
        let _ = workers.push(worker);
    }
}

/// Gives a pass, of which there are enough.
pub(crate) fn give<T: TakesEvents + Drop>(shared: &Shared<T>, first: &mut Pass<T>) -> Pass<T>
    requires pass { IsOf shared.now first.old }
    requires first { first.old.number ≡ 0 }
    requires few { first.old.given < 4294967295 }
    ensures pass { result ≡ given_by first.old }
    ensures given { first.new ≡ gave first.old 1 }
{
    match shared.split(first) {
        Ok(pass) => pass,
        Err(_) => unreachable!(),
    }
}
