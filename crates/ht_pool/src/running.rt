ghost use Rattle.std.specs.Prelude.{◌≡◌, ◌≤◌, [], length, map};
ghost use Rattle.std.specs.Prelude.{vec_capacity};
ghost use Rattle.ht_shared.specs.Passes.{IsOf, first_of};
ghost use Rattle.ht_pool.specs.Crews.{RunsCrew};
ghost use Rattle.ht_pool.specs.Gathering.{AreEach, AreOf, HasTurned, HasWorked, seat_of, seats_to, worker_of};

use crate::Crew;
use crate::gathering::gather;
use crate::seats::{give, seats_of, staff};
use crate::threads::run_threads;
use crate::timer::Timer;
use crate::worker::{Seat, Worker};
use ht_doors::Door;
use ht_outside::Clock;
use ht_serve::TakesEvents;
use ht_shared::{MakeRefusal, Pass, Shared};
use ht_workers::{Tickets, WorkEnd};
use std::alloc::Global;
use std::sync::Wait;
use std::thread::Threads;

/// Runs a crew at a machine, and gives the machine back once all have ended, which without a number of
/// connections is only where a door fails or there is no memory.
///
/// Each worker has a fork of the door and of the clock, and a thread where one can be made. All calls of
/// the crew are one legal history of the machine. `ending` is how the worst of the workers ended: `Door`,
/// where a call of the door failed, goes before `Memory`. A crew that can't begin makes no call.
pub fn run_crew<
    T: TakesEvents + Drop + Send,
    D: Door + Send,
    C: Clock + Send,
    R: Threads + Wait + Sync,
>(
    rt: &R,
    alloc: Global,
    crew: &Crew,
    machine: T,
    door: &mut D,
    clock: &C,
    ending: &mut WorkEnd,
) -> T
    requires stands { T.stands machine }
    ensures stands { T.stands result }
    ensures ran { RunsCrew T.relates crew.now machine result (D.door_state door.old)
        (D.door_state door.new) ending.new }
{
    let seats = match seats_of(alloc, crew, door, clock) {
        Ok(seats) => seats,
        Err(cause) => {
            *ending = cause;
            return machine;
        }
    };
    let Ok(workers) = Vec::with_capacity(alloc, seats.len()) else {
        *ending = WorkEnd::Memory;
        return machine;
    };
    match Shared::make(alloc, machine) {
        Ok((shared, first)) => run_at(
            rt,
            alloc,
            crew,
            shared,
            first,
            seats,
            workers,
            door,
            clock.fork(),
            ending,
        ),
        Err(MakeRefusal::Memory(machine)) => {
            *ending = WorkEnd::Memory;
            machine
        }
    }
}

// The same at the turn lock round the machine. There is room for the workers.
fn run_at<T: TakesEvents + Drop + Send, D: Door + Send, C: Clock + Send, R: Threads + Wait + Sync>(
    rt: &R,
    alloc: Global,
    crew: &Crew,
    shared: Shared<T>,
    first: Pass<T>,
    seats: Vec<Seat<D, C>>,
    workers: Vec<Worker<T, D, C>>,
    door: &mut D,
    clock: C,
    ending: &mut WorkEnd,
) -> T
    requires first { first ≡ first_of shared }
    requires seats { map (λ s. seat_of (D.door_state s.door) s.share) seats.items
        ≡ seats_to crew.now.workers crew.now.connections (D.door_state door.old)
        crew.now.workers }
    requires none { workers.items ≡ [] }
    requires count { length seats.items ≡ crew.now.workers }
    requires room { length seats.items ≤ vec_capacity workers }
    ensures stands { T.stands result }
    ensures ran { RunsCrew T.relates crew.now shared.start result (D.door_state door.old)
        (D.door_state door.new) ending.new }
{
    let mut first = first;
    let mut workers = workers;
    staff(&shared, &mut first, seats, &mut workers);
    let pass = give(&shared, &mut first);
    let tickets = Tickets::new(crew.workers);
    let (pass, workers) = run_beside(
        rt, alloc, &shared, &tickets, crew.tick, clock, pass, workers,
    );
    shared.join(&mut first, pass);
    *ending = gather(&shared, &mut first, workers, door);
    shared.close(first)
}

// Runs the workers beside the timer.
fn run_beside<
    'a,
    T: TakesEvents + Drop + Send,
    D: Door + Send,
    C: Clock + Send,
    R: Threads + Wait + Sync,
>(
    rt: &'a R,
    alloc: Global,
    shared: &'a Shared<T>,
    tickets: &'a Tickets,
    tick: u32,
    clock: C,
    pass: Pass<T>,
    workers: Vec<Worker<T, D, C>>,
) -> (Pass<T>, Vec<Worker<T, D, C>>)
    requires pass { IsOf shared.now pass }
    requires workers { AreOf shared.now
        (map (λ w. worker_of w.pass (D.door_state w.door) w.share w.ending) workers.items) }
    ensures pass { HasTurned T.relates pass result.0 }
    ensures workers { AreEach (HasWorked T.relates)
        (map (λ w. worker_of w.pass (D.door_state w.door) w.share w.ending) workers.items)
        (map (λ w. worker_of w.pass (D.door_state w.door) w.share w.ending) result.1.items) }
{
    let timer = Timer {
        rt,
        shared,
        tickets,
        tick,
        clock,
        pass,
    };
    let (timer, workers) = run_threads(rt, alloc, shared, tickets, timer, workers);
    let Timer {
        rt: _,
        shared: _,
        tickets: _,
        tick: _,
        clock: _,
        pass,
    } = timer;
    (pass, workers)
}
