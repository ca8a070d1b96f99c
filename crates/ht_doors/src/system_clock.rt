ghost use Rattle.std.specs.Prelude.{◌≡◌, ◌≤◌, None};
ghost use Rattle.ht_base.specs.Moment.{last_moment};

use ht_base::{LAST, Moment};
use ht_outside::Clock;
use std::time::Duration;
use std::{thread, time};

/// The clock of the system. It tells no moments. Where the system's can't be read, it gives the last
/// moment that it gave, and first 0.
#[derive(Drop)]
pub struct SystemClock<'a, R: time::Clock> {
    clock: &'a R,
    given: Moment,
    ghost valid: { given.0 ≤ last_moment },
}

impl<'a, R: time::Clock> SystemClock<'a, R> {
    pub fn new(clock: &'a R) -> SystemClock<'a, R> {
        SystemClock {
            clock,
            given: Moment(0),
        }
    }
}

impl<'a, R: time::Clock> Clock for SystemClock<'a, R> {
    ghost moments = { λ _. None };

    fn now(&mut self) -> Moment {
        if let Ok(since) = self.clock.since_1970() {
            self.given = moment_at(since);
        }
        self.given
    }

    fn rest(&mut self, milliseconds: u32) {
        thread::sleep(self.clock, Duration::from_millis(u64::from(milliseconds)));
    }

    fn fork(&self) -> SystemClock<'a, R> {
        SystemClock {
            clock: self.clock,
            given: self.given,
        }
    }
}

// The moment so long after 1970, and at most the last one there is.
fn moment_at(since: Duration) -> Moment
    ensures { result.0 ≤ last_moment }
{
    let milliseconds = u64::try_from(since.as_millis()).unwrap_or(LAST);
    Moment(milliseconds.min(LAST))
}
