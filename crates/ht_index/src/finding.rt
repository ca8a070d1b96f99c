ghost use Rattle.std.specs.Prelude.{◌≡◌, ◌+◌, ◌<◌, ◌≤◌, IfErr, IfOk, IsTrue, length, OnErr, OnOk, vec_capacity, vec_len};
ghost use Rattle.std.specs.Ordering.{nat_cmp};
ghost use Rattle.ht_index.specs.Indexes.{Ascends, with_task, without_task};
ghost use Rattle.ht_index.specs.Listed.{BelongsAt, StandsAt};

use ht_base::{Memory, TaskId};
use std::cmp::Ordering;

/// Puts a task in its place among tasks that ascend by number, if it isn't there.
pub fn put_task(tasks: &mut Vec<TaskId>, task: TaskId) -> Result<(), Memory>
    requires { Ascends tasks.old.items }
    ensures put { OnOk result (tasks.new.items ≡ with_task task tasks.old.items) }
    ensures refused { OnErr result (tasks.new.items ≡ tasks.old.items) }
    ensures ascends { Ascends tasks.new.items }
{
    tasks.reserve(1)?;
    put_in(tasks, task);
    Ok(())
}

// Puts a task in its place, if it isn't there. It takes no memory. Most tasks that come are the newest.
#[inline(always)]
#[tactic(auto, using(crate::proofs::Places::ascends_with))]
pub(crate) fn put_in(tasks: &mut Vec<TaskId>, task: TaskId)
    requires ascends { Ascends tasks.old.items }
    requires room { vec_len tasks.old < vec_capacity tasks.old }
    ensures tasks { tasks.new.items ≡ with_task task tasks.old.items }
    ensures ascends { Ascends tasks.new.items }
    ensures len { vec_len tasks.new ≤ vec_len tasks.old + 1 }
    ensures capacity { vec_capacity tasks.new ≡ vec_capacity tasks.old }
{
    if is_behind_all(tasks, task) {
        tasks.push_reserved(task);
    } else {
        put_among(tasks, task);
    }
}

#[inline(never)]
#[tactic(auto, using(crate::proofs::Places::ascends_with))]
fn put_among(tasks: &mut Vec<TaskId>, task: TaskId)
    requires ascends { Ascends tasks.old.items }
    requires room { vec_len tasks.old < vec_capacity tasks.old }
    ensures tasks { tasks.new.items ≡ with_task task tasks.old.items }
    ensures ascends { Ascends tasks.new.items }
    ensures len { vec_len tasks.new ≤ vec_len tasks.old + 1 }
    ensures capacity { vec_capacity tasks.new ≡ vec_capacity tasks.old }
{
    if let Err(place) = search(tasks, task) {
        let _ = tasks.insert(place, task);
    }
}

// Takes a task out, if it is there. It takes no memory.
#[tactic(auto, using(crate::proofs::Places::ascends_without))]
pub(crate) fn take_out(tasks: &mut Vec<TaskId>, task: TaskId)
    requires { Ascends tasks.old.items }
    ensures tasks { tasks.new.items ≡ without_task task tasks.old.items }
    ensures ascends { Ascends tasks.new.items }
    ensures len { vec_len tasks.new ≤ vec_len tasks.old }
    ensures capacity { vec_capacity tasks.new ≡ vec_capacity tasks.old }
{
    if let Ok(place) = search(tasks, task) {
        let _ = tasks.remove(place);
    }
}

#[inline(always)]
fn is_behind_all(tasks: &[TaskId], task: TaskId) -> bool
    requires { Ascends tasks.now }
    ensures { IsTrue result → BelongsAt task tasks.now (length tasks.now) }
{
    tasks.is_empty() || tasks[tasks.len() - 1].0 < task.0
}

// Where a task stands, or else where it would.
fn search(tasks: &[TaskId], task: TaskId) -> Result<usize, usize>
    requires { Ascends tasks.now }
    ensures found { IfOk result (StandsAt task tasks.now) }
    ensures missed { IfErr result (BelongsAt task tasks.now) }
{
    let number = task.0;
    tasks.binary_search_by(
        |other: &TaskId| -> Ordering
            ensures { result ≡ nat_cmp other.now.0 number }
        { other.0.cmp(&number) },
    )
}
