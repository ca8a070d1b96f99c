ghost use Rattle.std.specs.Prelude.{ℕ, ◌≡◌, ◌+◌, ◌≤◌, fold};
ghost use Rattle.ht_index.specs.Indexes.{moved};
ghost use Rattle.ht_index.specs.Kept.{coming, coming_by, list_at, spare_at};

use crate::Move;
use crate::listed::Listed;

// Makes these moves, one after another. It takes no memory.
pub(crate) fn move_all(lists: &mut Vec<Listed>, moves: &[Move])
    requires { (key : ℕ) → coming key moves.now ≤ spare_at key lists.old.items }
    ensures { (key : ℕ) → list_at key lists.new.items
        ≡ fold (moved key) (list_at key lists.old.items) moves.now }
{
    for one in moves {
        make(lists, *one);
    }
}

#[inline(always)]
fn make(lists: &mut Vec<Listed>, one: Move)
    requires { (key : ℕ) → coming_by key one ≤ spare_at key lists.old.items }
    ensures lists { (key : ℕ) → list_at key lists.new.items
        ≡ moved key (list_at key lists.old.items) one }
    ensures spare { (key : ℕ) → spare_at key lists.old.items
        ≤ spare_at key lists.new.items + coming_by key one }
{
    let place = one.key as usize;
    if place >= lists.len() {
        return;
    }
    if one.comes {
        lists[place].put(one.task);
    } else {
        lists[place].remove(one.task);
    }
}
