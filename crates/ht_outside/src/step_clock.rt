ghost use Rattle.std.specs.Prelude.{◌≡◌, ◌≤◌, Some};
ghost use Rattle.ht_base.specs.Moment.{last_moment};
ghost use Rattle.ht_outside.specs.Clocks.{moment_of};

use crate::Clock;
use ht_base::Moment;

/// A clock that gives `next`, and then adds `step` milliseconds to it, up to the last moment there is.
#[derive(Drop)]
pub struct StepClock {
    pub next: Moment,
    pub step: u64,
    pub ghost valid: { next.0 ≤ last_moment },
}

impl Clock for StepClock {
    ghost moments = { λ c. Some (moment_of c.next.0 c.step) };

    fn now(&mut self) -> Moment {
        let at = self.next;
        self.next = at.later_by(self.step);
        at
    }

    fn rest(&mut self, _milliseconds: u32) {}

    fn fork(&self) -> StepClock {
        StepClock {
            next: self.next,
            step: self.step,
        }
    }
}
