ghost use Rattle.std.specs.Prelude.{◌≡◌, ℕ, Bool, false};
ghost use Rattle.ht_outside.specs.Causes.{next_count};

use crate::Tickets;

/// Tells a timer when it is to end.
pub trait Finish {
    /// How often it was asked, up to 18446744073709551615.
    ghost asked: { Self → ℕ };

    /// What it answered last.
    ghost last: { Self → Bool };

    /// Whether the timer is to end now.
    fn done(&mut self) -> bool
        ensures asked { asked self.new ≡ next_count (asked self.old) }
        ensures last { last self.new ≡ result };
}

/// The end of all workers: a timer ends once none is at work.
#[derive(Drop)]
pub struct Watch<'a> {
    tickets: &'a Tickets,
    asked: u64,
    last: bool,
}

impl<'a> Watch<'a> {
    /// Watches the workers of these tickets. It was not asked yet.
    pub fn new(tickets: &'a Tickets) -> Watch<'a>
        ensures { (result.asked ≡ 0) × (result.last ≡ false) }
    {
        Watch {
            tickets,
            asked: 0,
            last: false,
        }
    }
}

impl<'a> Finish for Watch<'a> {
    ghost asked = { λ w. w.asked };

    ghost last = { λ w. w.last };

    fn done(&mut self) -> bool {
        self.asked = self.asked.saturating_add(1);
        self.last = !self.tickets.is_at_work();
        self.last
    }
}
