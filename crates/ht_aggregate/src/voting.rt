//! Whether enough of them are for it.
ghost use Rattle.std.specs.Prelude.{◌*◌, ◌<◌, ◌↔◌, IsTrue};

/// Whether more than this percent of `count` are `times`.
pub(crate) fn is_enough(percent: u8, times: usize, count: usize) -> bool
    ensures { IsTrue result ↔ (percent * count < 100 * times) }
{
    u128::from(percent) * (count as u128) < 100 * (times as u128)
}
