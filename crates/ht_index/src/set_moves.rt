ghost use Rattle.std.specs.Prelude.{ℕ, ◌≡◌, ◌≤◌, ◌<◌, All, fold, length, OnOk};
ghost use Rattle.ht_index.specs.Indexes.{moved};
ghost use Rattle.ht_index.specs.SetMoves.{HasRoomFor, reach_at, tasks_at};

use crate::{Move, Tasks};
use ht_base::{Memory, TaskId};

// Makes room for each task that comes.
pub(crate) fn reserve_all(sets: &mut Vec<Tasks>, moves: &[Move]) -> Result<(), Memory>
    ensures sets { (key : ℕ) → tasks_at key sets.new.items ≡ tasks_at key sets.old.items }
    ensures room { OnOk result (All (HasRoomFor sets.new.items) moves.now) }
{
    for one in moves {
        if one.comes {
            reserve(sets, one.key, one.task)?;
        }
    }
    Ok(())
}

// Makes room for a task in the set of a key. The room for others stays.
#[inline(always)]
fn reserve(sets: &mut Vec<Tasks>, key: u32, task: TaskId) -> Result<(), Memory>
    ensures sets { (k : ℕ) → tasks_at k sets.new.items ≡ tasks_at k sets.old.items }
    ensures kept { (k : ℕ) → reach_at k sets.old.items ≤ reach_at k sets.new.items }
    ensures room { OnOk result (task.0 < reach_at key sets.new.items) }
{
    if key as usize >= sets.len() {
        grow(sets, key)?;
    }
    sets[key as usize].reserve(task)
}

// Makes sets up to that of a key.
#[inline(never)]
fn grow(sets: &mut Vec<Tasks>, key: u32) -> Result<(), Memory>
    ensures sets { (k : ℕ) → tasks_at k sets.new.items ≡ tasks_at k sets.old.items }
    ensures reach { (k : ℕ) → reach_at k sets.new.items ≡ reach_at k sets.old.items }
    ensures there { OnOk result (key < length sets.new.items) }
{
    let alloc = *sets.allocator();
    for _ in sets.len()..key as usize + 1 {
        sets.push(Tasks::new(alloc))?;
    }
    Ok(())
}

// Makes these moves, one after another. It takes no memory.
pub(crate) fn make_all(sets: &mut Vec<Tasks>, moves: &[Move])
    requires { All (HasRoomFor sets.old.items) moves.now }
    ensures { (key : ℕ) → tasks_at key sets.new.items
        ≡ fold (moved key) (tasks_at key sets.old.items) moves.now }
{
    for one in moves {
        make(sets, *one);
    }
}

#[inline(always)]
fn make(sets: &mut Vec<Tasks>, one: Move)
    requires { HasRoomFor sets.old.items one }
    ensures sets { (key : ℕ) → tasks_at key sets.new.items
        ≡ moved key (tasks_at key sets.old.items) one }
    ensures room { (key : ℕ) → reach_at key sets.new.items ≡ reach_at key sets.old.items }
{
    let place = one.key as usize;
    if place >= sets.len() {
        return;
    }
    if one.comes {
        sets[place].put(one.task);
    } else {
        sets[place].remove(one.task);
    }
}
