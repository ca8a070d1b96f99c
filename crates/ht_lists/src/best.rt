ghost use Rattle.std.specs.Prelude.{ℕ, ◌≡◌, ◌+◌, ◌-◌, ◌^◌, ◌<◌, ◌≤◌, IfOk, IfSome, OnErr, OnOk, Some, false, length, take, true};
ghost use Rattle.ht_lists.specs.declared.best.TheConstants.{BEHIND_ALL};
ghost use Rattle.ht_lists.specs.Best as spec;
ghost use Rattle.ht_lists.specs.Best.{Bounds, first_of, none_of, room_for, told, with_held, with_key};
ghost use Rattle.ht_lists.specs.Keys as key;
ghost use Rattle.ht_lists.specs.Keys.{compare_keys};
ghost use Rattle.ht_lists.specs.Sorted.{put_by};
ghost use Rattle.ht_tree.specs.Tables.{task_row};

use crate::keys::{Key, in_order, key_of};
use ht_base::{Memory, Moment, TaskId};
use ht_tree::{Row, Tables};
use std::alloc::Global;
use std::marker::Model;

/// So many keys more than twice the wanted ones are held where few are wanted.
const SPARE: usize = 64;

/// The priority of a key that comes behind those of all tasks.
const BEHIND_ALL: u8 = u8::MAX;

/// The first of the keys that are offered, in order, as many as are wanted, and how many were offered.
/// At most twice as many as are wanted are held at a time, or 64 more than are wanted.
#[derive(Drop)]
pub(crate) struct Best {
    limit: usize,
    // Of those that were offered at least the first so many.
    keys: Vec<Key>,
    total: u32,
    // A key that doesn't come before it isn't one of the first, unless it comes behind all keys.
    bound: Key,
}

impl Model for Best {
    ghost use Rattle.ht_lists.specs.Best.{BestOf};
    ghost use Rattle.ht_lists.specs.BestHeld.{IsHeld, best_held};

    ghost Value = { BestOf };

    ghost view = { best_held };

    ghost invariant = { IsHeld };
}

/// What is at hand while many are offered, in registers: a bound, and how many were offered so far.
#[derive(Clone, Copy)]
pub(crate) struct Offers {
    bound: Key,
    total: u32,
}

impl Offers {
    /// So many more were offered.
    #[inline(always)]
    pub(crate) fn count(&mut self, more: usize)
        requires { self.old.total + more < 2 ^ 32 }
        ensures total { self.new.total ≡ self.old.total + more }
        ensures bound { self.new.bound ≡ self.old.bound }
    {
        self.total += more as u32;
    }
}

impl Best {
    /// None are offered yet, and the first `from` and `count` are wanted.
    pub(crate) fn new(alloc: Global, from: u32, count: u32) -> Best
        ensures { result ≡ none_of (from + count) }
    {
        Best {
            limit: from as usize + count as usize,
            keys: Vec::new(alloc),
            total: 0,
            bound: Key {
                created: Moment(0),
                task: TaskId(0),
                priority: BEHIND_ALL,
            },
        }
    }

    /// Before many are offered.
    #[inline(always)]
    pub(crate) fn offers(&self) -> Offers
        ensures total { result.total ≡ self.now.total }
        ensures bounds { Bounds self.now.limit self.now.keys result.bound }
    {
        Offers {
            bound: self.bound(),
            total: self.total,
        }
    }

    /// Whether a task is seen not to be one of the first, however many were offered. It isn't counted.
    #[inline(always)]
    pub(crate) fn passes(&self, row: &Row, offers: &Offers) -> bool
        requires priority { row.now.priority < BEHIND_ALL }
        requires bounds { Bounds self.now.limit self.now.keys offers.now.bound }
        ensures { result ≡ true → (total : ℕ) → told self.now (total + 1)
            ≡ with_key (told self.now total) (key.key_of row.now) }
    {
        is_plainly_behind(row, &offers.bound)
    }

    /// One task more. The number of those that were offered is left as it is.
    #[inline(always)]
    pub(crate) fn offer(
        &mut self,
        tables: &Tables,
        id: TaskId,
        row: &Row,
        offers: &mut Offers,
    ) -> Result<(), Memory>
        requires few { offers.old.total < 2 ^ 32 - 1 }
        requires row { task_row tables.now.tables id.0 ≡ Some row.now }
        requires priority { row.now.priority < BEHIND_ALL }
        requires bounds { Bounds self.old.limit self.old.keys offers.old.bound }
        ensures offered { OnOk result (told self.new offers.new.total
            ≡ with_key (told self.old offers.old.total) (key.key_of row.now)) }
        ensures bounds { OnOk result (Bounds self.new.limit self.new.keys offers.new.bound) }
    {
        offers.total += 1;
        if is_plainly_behind(row, &offers.bound) {
            return Ok(());
        }
        self.look_at(tables, id)?;
        offers.bound = self.bound();
        Ok(())
    }

    /// So many were offered.
    pub(crate) fn tell(&mut self, offers: Offers)
        ensures { self.new ≡ told self.old offers.total }
    {
        self.total = offers.total;
    }

    // Holds the key of one task more, if it is one of the first. Of many tasks few are looked at here.
    #[cold]
    #[inline(never)]
    fn look_at(&mut self, tables: &Tables, id: TaskId) -> Result<(), Memory>
        ensures { OnOk result (IfSome (task_row tables.now.tables id.0)
            (λ row. self.new ≡ with_held self.old (key.key_of row))) }
    {
        let Some(row) = tables.row(id) else {
            return Ok(());
        };
        let key = key_of(row);
        if is_behind(&key, &self.bound) {
            return Ok(());
        }
        self.bound = hold(&mut self.keys, self.limit, self.bound, key)?;
        Ok(())
    }

    #[inline(always)]
    fn bound(&self) -> Key
        ensures { Bounds self.now.limit self.now.keys result }
    {
        self.bound
    }

    /// How many were offered.
    pub(crate) fn total(&self) -> u32
        ensures { result ≡ self.now.total }
    {
        self.total
    }

    /// The first of them, in order.
    pub(crate) fn into_keys(self) -> Vec<Key>
        ensures { result.items ≡ self.keys }
    {
        let Best { limit, keys, .. } = self;
        let mut keys = keys;
        cut(&mut keys, limit);
        keys
    }
}

// Whether the row is of no higher priority than the bound has, and later. That is so of nearly all that are
// behind, and two comparisons tell it of most.
#[inline(always)]
fn is_plainly_behind(row: &Row, bound: &Key) -> bool
    ensures { result ≡ true → spec.is_behind (key.key_of row.now) bound.now ≡ true }
{
    if row.priority < bound.priority {
        return false;
    }
    row.created.0 > bound.created.0
        || (row.created.0 == bound.created.0 && row.task.0 >= bound.task.0)
}

fn is_behind(key: &Key, bound: &Key) -> bool
    ensures { result ≡ spec.is_behind key.now bound.now }
{
    key >= bound
}

// Holds one key more, and gives the bound from then on.
fn hold(keys: &mut Vec<Key>, limit: usize, bound: Key, key: Key) -> Result<Key, Memory>
    requires few { length keys.old.items < room_for limit }
    requires small { limit < 2 ^ 33 }
    requires bounds { Bounds limit (first_of limit keys.old.items) bound }
    ensures first { OnOk result (first_of limit keys.new.items
        ≡ take limit (put_by compare_keys (first_of limit keys.old.items) key)) }
    ensures few { OnOk result (length keys.new.items < room_for limit) }
    ensures bounds { IfOk result (λ b. Bounds limit (first_of limit keys.new.items) b) }
    ensures refused { OnErr result (keys.new.items ≡ keys.old.items) }
{
    keys.push(key)?;
    if keys.len() < limit + limit.max(SPARE) {
        return Ok(bound);
    }
    cut(keys, limit);
    Ok(keys.last().copied().unwrap_or(bound))
}

// Keeps the first so many, in order.
fn cut(keys: &mut Vec<Key>, limit: usize)
    ensures { keys.new.items ≡ first_of limit keys.old.items }
{
    in_order(keys);
    keys.truncate(limit);
}
