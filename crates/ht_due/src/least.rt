ghost use Rattle.std.specs.Prelude.{◌≡◌};
ghost use Rattle.ht_due.specs.Dues as spec;

use crate::Due;
use std::cmp::Ordering;

/// The lesser of two dues, where both are there.
pub fn lesser(a: Option<Due>, b: Option<Due>) -> Option<Due>
    ensures { result ≡ spec.lesser a b }
{
    let Some(first) = a else {
        return b;
    };
    let Some(second) = b else {
        return a;
    };
    match first.cmp(&second) {
        Ordering::Less | Ordering::Equal => a,
        Ordering::Greater => b,
    }
}
