ghost use Rattle.std.proofs.Common.{rules};
ghost use Rattle.std.specs.Cmp.{partial_order_from_own_ties};
ghost use Rattle.std.specs.Cmp.Rules.{comparing};
ghost use Rattle.std.specs.Ordering.{as_partial_cmp};
ghost use Rattle.std.specs.Prelude.{◌≡◌};
ghost use Rattle.ht_lists.specs.Keys as spec;
ghost use Rattle.ht_lists.specs.Keys.{compare_keys};
ghost use Rattle.ht_lists.specs.Sorted.{sorted_by};

use ht_base::{Moment, TaskId};
use ht_tree::Row;
use std::cmp::Ordering;

/// By what tasks are ordered. The widest field stands first, so that a key takes 16 bytes.
#[derive(Clone, Copy, PartialEq, Eq)]
pub(crate) struct Key {
    pub(crate) created: Moment,
    pub(crate) task: TaskId,
    /// 0, the highest, to `LOWEST_PRIORITY`.
    pub(crate) priority: u8,
}

const _: () = prove!(size_of::<Key>() == 16);

impl Ord for Key {
    ghost cmp = { compare_keys };

    ghost total = { Prim.search (comparing, rules) };

    ghost matches_partial_cmp = { Prim.search (comparing, rules) };

    ghost matches_eq = { Prim.search (comparing, rules) };

    fn cmp(&self, other: &Key) -> Ordering {
        match self.priority.cmp(&other.priority) {
            Ordering::Equal => match self.created.0.cmp(&other.created.0) {
                Ordering::Equal => self.task.0.cmp(&other.task.0),
                by_age => by_age,
            },
            by_priority => by_priority,
        }
    }
}

impl PartialOrd for Key {
    ghost partial_cmp = { as_partial_cmp compare_keys };

    ghost laws = { partial_order_from_own_ties (Prim.search (comparing, rules))
        (Prim.search (comparing, rules)) };

    fn partial_cmp(&self, other: &Key) -> Option<Ordering> {
        Some(self.cmp(other))
    }
}

pub(crate) fn key_of(row: &Row) -> Key
    ensures { result ≡ spec.key_of row.now }
{
    Key {
        created: row.created,
        task: row.task,
        priority: row.priority,
    }
}

/// Puts keys in order. It takes no memory.
pub(crate) fn in_order(keys: &mut Vec<Key>)
    ensures { keys.new.items ≡ sorted_by compare_keys keys.old.items }
{
    keys.sort_unstable();
}
