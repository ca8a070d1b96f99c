ghost use Rattle.std.specs.Prelude.{◌≡◌};
ghost use denote.Param.Send.{IsSync};
ghost use Rattle.ht_shared.specs.Passes.{IsOf, IsSamePass};

use crate::offices::{CLAIM, OneTask, READ, clock, door, lock};
use ht_doors::{Door, MemoryDoor};
use ht_serve::{Gate, Quiet};
use ht_shared::{Pass, Shared};
use ht_workers::{Tickets, Watch, WorkEnd, timer_loop, work};
use std::alloc::Global;
use std::sync::Wait;
use std::sync::atomic::{AtomicU64, Ordering};
use std::test::Fail;
use std::thread;
use std::thread::{Threads, join};

const LOOKS: u32 = 1_000_000;

// The first connection waits until the second one has its reply.
#[derive(Drop)]
struct SecondFirst {
    left: AtomicU64,
    in_vain: AtomicU64,
}

impl Gate for SecondFirst {
    fn enter(&self, connection: u32) {
        if connection != 1 {
            return;
        }
        for _ in 0..LOOKS {
            if self.left.load(Ordering::SeqCst) > 0 {
                return;
            }
            thread::yield_now();
        }
        self.in_vain.store(1, Ordering::SeqCst);
    }

    fn leave(&self, connection: u32) {
        if connection == 2 {
            self.left.store(1, Ordering::SeqCst);
        }
    }
}

// Serves so many links of a door, and gives the pass back.
fn serve<'a, G: Gate, R: Wait>(
    rt: &'a R,
    alloc: Global,
    shared: &Shared<OneTask>,
    mut pass: Pass<OneTask>,
    door: &mut MemoryDoor<'a, R>,
    gate: &G,
    tickets: &Tickets,
    share: u32,
) -> (Pass<OneTask>, WorkEnd)
    requires { IsOf shared.now pass }
    ensures { IsSamePass pass result.0 }
{
    let end = work(
        rt,
        alloc,
        shared,
        &mut pass,
        door,
        &mut clock(),
        gate,
        tickets,
        Some(share),
    );
    (pass, end)
}

// Serves two links of a door.
fn serve_two<'a, R: Wait>(
    rt: &'a R,
    alloc: Global,
    shared: &Shared<OneTask>,
    pass: Pass<OneTask>,
    mut door: MemoryDoor<'a, R>,
    tickets: &Tickets,
) -> (Pass<OneTask>, WorkEnd)
    requires { IsOf shared.now pass }
    ensures { IsSamePass pass result.0 }
{
    serve(rt, alloc, shared, pass, &mut door, &Quiet, tickets, 2)
}

// Makes turns until no worker is at work, and gives the pass back.
fn turn_until_done<R: Wait>(
    rt: &R,
    shared: &Shared<OneTask>,
    mut pass: Pass<OneTask>,
    tickets: &Tickets,
) -> (Pass<OneTask>, u64)
    requires { IsOf shared.now pass }
    ensures { IsSamePass pass result.0 }
{
    let mut watch = Watch::new(tickets);
    let turns = timer_loop(rt, shared, &mut pass, &mut clock(), 0, &mut watch);
    (pass, turns)
}

#[test]
fn workers_are_at_work_at_once(rt: HostRuntime) -> Result<(), Fail> {
    let alloc = rt.alloc();
    let (shared, first) = lock(alloc)?;
    let mut first = first;
    let second = shared.split(&mut first)?;
    let handle = &rt;
    let line = &shared;
    let mut door = door(handle, alloc, &[CLAIM, READ])?;
    let mut fork = door.fork()?;
    let (a_door, another) = (&mut door, &mut fork);
    let gate = &SecondFirst {
        left: AtomicU64::new(0),
        in_vain: AtomicU64::new(0),
    };
    let tickets = &Tickets::new(2);
    let (one, two) = join(
        handle,
        move || -> (Pass<OneTask>, WorkEnd)
            requires { IsOf line.now first }
        { serve(handle, alloc, line, first, a_door, gate, tickets, 1) },
        move || -> (Pass<OneTask>, WorkEnd)
            requires { IsOf line.now second }
        { serve(handle, alloc, line, second, another, gate, tickets, 1) },
    );
    assert_eq!(&rt; (one.1, two.1), (WorkEnd::Done, WorkEnd::Done));
    assert_eq!(&rt; gate.in_vain.load(Ordering::SeqCst), 0);
    door.join(fork);
    assert!(&rt; door.written(0)?.as_slice().starts_with(b"HTTP/1.1 200 "));
    assert!(&rt; door.written(1)?.as_slice().starts_with(b"HTTP/1.1 200 "));
    Ok(())
}

// A worker beside a timer, which ends with it.
fn work_beside_timer<'a, R: Threads + Wait + Sync>(
    rt: &'a R,
    alloc: Global,
    shared: &Shared<OneTask>,
    first: Pass<OneTask>,
    second: Pass<OneTask>,
    door: MemoryDoor<'a, R>,
    tickets: &Tickets,
) -> ((Pass<OneTask>, u64), (Pass<OneTask>, WorkEnd))
    requires passes { IsOf shared.now first × IsOf shared.now second }
    ensures timer { IsSamePass second result.0.0 }
    ensures worker { IsSamePass first result.1.0 }
{
    join(
        rt,
        move || -> (Pass<OneTask>, u64)
            requires { IsOf shared.now second }
            ensures { IsSamePass second result.0 }
        { turn_until_done(rt, shared, second, tickets) },
        move || -> (Pass<OneTask>, WorkEnd)
            requires { IsSync R.row × IsOf shared.now first }
            ensures { IsSamePass first result.0 }
        { serve_two(rt, alloc, shared, first, door, tickets) },
    )
}

#[test]
fn a_timer_ends_with_the_last_worker(rt: HostRuntime) -> Result<(), Fail> {
    let alloc = rt.alloc();
    let (shared, first) = lock(alloc)?;
    let mut first = first;
    let second = shared.split(&mut first)?;
    let door = door(&rt, alloc, &[CLAIM, READ])?;
    let tickets = Tickets::new(1);
    let (timer, worker) = work_beside_timer(&rt, alloc, &shared, first, second, door, &tickets);
    let (second, turns) = timer;
    let (mut first, end) = worker;
    assert_eq!(rt; end, WorkEnd::Done);
    shared.join(&mut first, second);
    let task = shared.close(first);
    assert_eq!(rt; (task.asked, task.turns), (2, turns));
    assert!(rt; turns > 0);
    Ok(())
}
