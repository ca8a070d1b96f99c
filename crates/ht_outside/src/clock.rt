ghost use Rattle.std.specs.Prelude.{◌≡◌, ◌≤◌, ℕ, Option};
ghost use Rattle.ht_base.specs.Moment.{last_moment};
ghost use Rattle.ht_outside.specs.Clocks.{IsNext, later};

use ht_base::Moment;

/// Where moments come from.
pub trait Clock: Sized + Drop {
    /// The kth moment that it gives from now on, for each k from 0, where the clock tells it. No
    /// call makes a clock begin or cease to tell.
    ghost moments: { Self → Option (ℕ → ℕ) };

    /// The moment now, at most the last moment there is.
    fn now(&mut self) -> Moment
        ensures next { IsNext (moments self.old) result.0 }
        ensures left { moments self.new ≡ later (moments self.old) }
        ensures valid { result.0 ≤ last_moment };

    /// Waits for so many milliseconds.
    fn rest(&mut self, milliseconds: u32)
        ensures { moments self.new ≡ moments self.old };

    /// Another clock, for another thread.
    fn fork(&self) -> Self;
}
