ghost use Rattle.std.specs.Prelude.{◌≡◌, map};
ghost use denote.Param.Send.{IsSend, IsSync};
ghost use Rattle.ht_shared.specs.Passes.{IsOf};
ghost use Rattle.ht_pool.specs.Gathering.{AreEach, AreOf, HasWorked, worker_of};

use crate::timer::Task;
use crate::worker::Worker;
use ht_doors::Door;
use ht_outside::Clock;
use ht_serve::{Quiet, TakesEvents};
use ht_shared::Shared;
use ht_workers::{Tickets, work};
use std::alloc::Global;
use std::sync::Wait;
use std::thread;
use std::thread::Threads;

/// Runs the workers, each in a thread of its own, beside another task, and gives all back once they
/// have ended.
///
/// It takes no memory of its own. The task is the first of the two that `join` is given, since that one
/// comes last where no thread can be made: a timer ends once no worker is at work.
pub(crate) fn run_threads<
    K: Task + Send + Drop,
    T: TakesEvents + Drop + Send,
    D: Door + Send,
    C: Clock + Send,
    R: Threads + Wait + Sync,
>(
    rt: &R,
    alloc: Global,
    shared: &Shared<T>,
    tickets: &Tickets,
    task: K,
    workers: Vec<Worker<T, D, C>>,
) -> (K, Vec<Worker<T, D, C>>)
    requires task { K.can_run task }
    requires workers { AreOf shared.now
        (map (λ w. worker_of w.pass (D.door_state w.door) w.share w.ending) workers.items) }
    ensures task { K.has_run task result.0 }
    ensures workers { AreEach (HasWorked T.relates)
        (map (λ w. worker_of w.pass (D.door_state w.door) w.share w.ending) workers.items)
        (map (λ w. worker_of w.pass (D.door_state w.door) w.share w.ending) result.1.items) }
{
    thread::join(
        rt,
        move || -> K
            requires { K.can_run task }
            ensures { K.has_run task result }
        { run_task(task) },
        move || -> Vec<Worker<T, D, C>>
            requires { IsSync R.row × IsSend T.row × IsSend D.row × IsSend C.row
                × AreOf shared.now
                (map (λ w. worker_of w.pass (D.door_state w.door) w.share w.ending)
                workers.items) }
            ensures { AreEach (HasWorked T.relates)
                (map (λ w. worker_of w.pass (D.door_state w.door) w.share w.ending) workers.items)
                (map (λ w. worker_of w.pass (D.door_state w.door) w.share w.ending) result.items) }
        { work_all(rt, alloc, shared, tickets, workers) },
    )
}

fn run_task<K: Task>(task: K) -> K
    requires { K.can_run task }
    ensures { K.has_run task result }
{
    let mut task = task;
    task.run();
    task
}

fn work_all<
    T: TakesEvents + Drop + Send,
    D: Door + Send,
    C: Clock + Send,
    R: Threads + Wait + Sync,
>(
    rt: &R,
    alloc: Global,
    shared: &Shared<T>,
    tickets: &Tickets,
    workers: Vec<Worker<T, D, C>>,
) -> Vec<Worker<T, D, C>>
    requires { AreOf shared.now
        (map (λ w. worker_of w.pass (D.door_state w.door) w.share w.ending) workers.items) }
    ensures { AreEach (HasWorked T.relates)
        (map (λ w. worker_of w.pass (D.door_state w.door) w.share w.ending) workers.items)
        (map (λ w. worker_of w.pass (D.door_state w.door) w.share w.ending) result.items) }
{
    let mut workers = workers;
    work_each(rt, alloc, shared, tickets, workers.as_mut_slice());
    workers
}

// Each in a thread of its own, where one can be made.
fn work_each<
    T: TakesEvents + Drop + Send,
    D: Door + Send,
    C: Clock + Send,
    R: Threads + Wait + Sync,
>(rt: &R, alloc: Global, shared: &Shared<T>, tickets: &Tickets, workers: &mut [Worker<T, D, C>])
    requires { AreOf shared.now
        (map (λ w. worker_of w.pass (D.door_state w.door) w.share w.ending) workers.old) }
    ensures { AreEach (HasWorked T.relates)
        (map (λ w. worker_of w.pass (D.door_state w.door) w.share w.ending) workers.old)
        (map (λ w. worker_of w.pass (D.door_state w.door) w.share w.ending) workers.new) }
{
    let threads = workers.len().max(1);
    thread::for_each_mut(
        rt,
        workers,
        threads,
        &|_, worker: &mut Worker<T, D, C>|
            requires { IsOf shared.now worker.now.pass }
            ensures { HasWorked T.relates
                (worker_of worker.entry.now.pass (D.door_state worker.entry.now.door)
                worker.entry.now.share worker.entry.now.ending)
                (worker_of worker.exit.now.pass (D.door_state worker.exit.now.door)
                worker.exit.now.share worker.exit.now.ending) }
        { work_one(rt, alloc, shared, tickets, worker) },
    );
}

// The work of one.
fn work_one<T: TakesEvents + Drop, D: Door, C: Clock, R: Wait>(
    rt: &R,
    alloc: Global,
    shared: &Shared<T>,
    tickets: &Tickets,
    worker: &mut Worker<T, D, C>,
)
    requires { IsOf shared.now worker.old.pass }
    ensures { HasWorked T.relates
        (worker_of worker.old.pass (D.door_state worker.old.door) worker.old.share
        worker.old.ending)
        (worker_of worker.new.pass (D.door_state worker.new.door) worker.new.share
        worker.new.ending) }
{
    worker.ending = work(
        rt,
        alloc,
        shared,
        &mut worker.pass,
        &mut worker.door,
        &mut worker.clock,
        &Quiet,
        tickets,
        worker.share,
    );
}
