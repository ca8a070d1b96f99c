ghost use Rattle.std.specs.Prelude.{◌≡◌};
ghost use Rattle.ht_base.specs.Moment as spec;

/// The last moment there is, 9999-12-31T23:59:59.999Z, in milliseconds since
/// 1970-01-01T00:00:00Z.
pub const LAST: u64 = 253_402_300_799_999;

/// A moment in whole milliseconds since 1970-01-01T00:00:00Z. A valid one is at most [`LAST`].
#[derive(Clone, Copy, Debug, PartialEq, Eq, PartialOrd, Ord)]
pub struct Moment(pub u64);

impl Moment {
    /// So many milliseconds later, and at most the last moment there is.
    pub fn later_by(self, milliseconds: u64) -> Moment
        ensures { result ≡ spec.later_by self milliseconds }
    {
        Moment(self.0.saturating_add(milliseconds).min(LAST))
    }
}
