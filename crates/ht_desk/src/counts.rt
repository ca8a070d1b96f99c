ghost use Rattle.std.specs.Prelude.{◌≡◌};
ghost use Rattle.ht_desk.specs.Counting.{no_counts, replied, with_joined};

use ht_base::Event;

/// How often what happened, since the office was opened. A count stops at 18446744073709551615.
#[derive(Clone, Copy, Debug, PartialEq, Eq)]
pub struct Counts {
    /// Turn events.
    pub turns: u64,
    /// Commands that acted.
    pub accepted: u64,
    /// Timed actions.
    pub taken: u64,
}

impl Counts {
    // Nothing happened yet.
    pub(crate) fn none() -> Counts
        ensures { result ≡ no_counts }
    {
        Counts {
            turns: 0,
            accepted: 0,
            taken: 0,
        }
    }

    // Counts a record that joins the others.
    pub(crate) fn join(&mut self, asked: bool)
        ensures { self.new ≡ with_joined self.old asked }
    {
        if asked {
            self.accepted = self.accepted.saturating_add(1);
        }
    }

    // Counts an event that was replied to.
    pub(crate) fn reply(&mut self, event: &Event, taken: u32)
        ensures { self.new ≡ replied self.old event.now taken }
    {
        if let Event::Turn { .. } = event {
            self.turns = self.turns.saturating_add(1);
        }
        self.taken = self.taken.saturating_add(u64::from(taken));
    }
}
