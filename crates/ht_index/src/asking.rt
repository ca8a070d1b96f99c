ghost use Rattle.std.specs.Prelude.{ℕ, ◌≡◌, ◌≤◌, ◌<◌, ◌+◌, length, OnErr, OnOk};
ghost use Rattle.ht_index.specs.Indexes.{Ascends};
ghost use Rattle.ht_index.specs.Kept.{coming, coming_by, list_at, spare_at};

use crate::Move;
use crate::listed::Listed;
use ht_base::{Memory, TaskId};

// Asks for room for each task that comes.
pub(crate) fn ask_all(lists: &mut Vec<Listed>, moves: &[Move]) -> Result<(), Memory>
    ensures lists { (key : ℕ) → list_at key lists.new.items ≡ list_at key lists.old.items }
    ensures room { OnOk result ((key : ℕ) → coming key moves.now ≤ spare_at key lists.new.items) }
{
    for one in moves {
        if one.comes {
            ask(lists, one.key)?;
        }
    }
    Ok(())
}

// Gives back the room that was asked for.
pub(crate) fn give_all_back(lists: &mut Vec<Listed>, moves: &[Move])
    requires room { (key : ℕ) → coming key moves.now ≤ spare_at key lists.old.items }
    ensures lists { (key : ℕ) → list_at key lists.new.items ≡ list_at key lists.old.items }
{
    for one in moves {
        give_back(lists, *one);
    }
}

fn give_back(lists: &mut Vec<Listed>, one: Move)
    requires { (key : ℕ) → coming_by key one ≤ spare_at key lists.old.items }
    ensures lists { (key : ℕ) → list_at key lists.new.items ≡ list_at key lists.old.items }
    ensures spare { (key : ℕ) → spare_at key lists.old.items
        ≤ spare_at key lists.new.items + coming_by key one }
{
    if one.comes {
        lists[one.key as usize].give_back();
    }
}

// Asks for room for one task more in the list of a key.
#[inline(always)]
fn ask(lists: &mut Vec<Listed>, key: u32) -> Result<(), Memory>
    ensures lists { (k : ℕ) → list_at k lists.new.items ≡ list_at k lists.old.items }
    ensures kept { (k : ℕ) → spare_at k lists.old.items ≤ spare_at k lists.new.items }
    ensures more { OnOk result (spare_at key lists.old.items + 1 ≤ spare_at key lists.new.items) }
{
    if key as usize >= lists.len() {
        grow(lists, key)?;
    }
    lists[key as usize].ask()
}

// Makes lists up to that of a key.
#[inline(never)]
fn grow(lists: &mut Vec<Listed>, key: u32) -> Result<(), Memory>
    ensures lists { (k : ℕ) → list_at k lists.new.items ≡ list_at k lists.old.items }
    ensures spare { (k : ℕ) → spare_at k lists.new.items ≡ spare_at k lists.old.items }
    ensures there { OnOk result (key < length lists.new.items) }
{
    let alloc = *lists.allocator();
    for _ in lists.len()..key as usize + 1 {
        lists.push(Listed::new(alloc))?;
    }
    Ok(())
}
