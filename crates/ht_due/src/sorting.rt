ghost use Rattle.std.specs.Prelude.{◌≡◌, ◌≤◌, vec_capacity, vec_len};
ghost use Rattle.ht_due.specs.Dues as spec;

use crate::Due;

/// Sorts dues, and keeps one of each. It takes no memory.
pub fn in_order(dues: &mut Vec<Due>)
    ensures value { dues.new.items ≡ spec.in_order dues.old.items }
    ensures bound { vec_len dues.new ≤ vec_len dues.old }
    ensures capacity { vec_capacity dues.new ≡ vec_capacity dues.old }
{
    dues.sort_unstable();
    dues.dedup();
}
