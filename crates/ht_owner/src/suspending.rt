ghost use Rattle.std.specs.Prelude.{◌≡◌};
ghost use Rattle.ht_owner.specs.Suspending as spec;

use ht_base::{End, Moment};

/// When a suspension ends that begins at a moment. No sum is later than the last moment there is.
pub(crate) fn end_at(at: Moment, end: End) -> Moment
    ensures { result ≡ spec.end_at at end }
{
    match end {
        End::At(moment) => moment,
        End::After(period) => at.later_by(period),
    }
}
