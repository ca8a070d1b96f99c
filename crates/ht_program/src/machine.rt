ghost use Rattle.std.specs.Prelude.{◌≡◌};
ghost use Rattle.ht_base.specs.Events.{IsValid};
ghost use Rattle.ht_desk.specs.Stepping.{AnswersWith, Stands};

use ht_base::{Event, Reply, Stepper};
use ht_desk::DeskState;
use ht_outside::Disk;
use ht_serve::TakesEvents;

/// A durable office with the disk of its journal. Whoever goes on with the disk closes it before: nothing
/// is known of the disk otherwise.
#[derive(Drop)]
pub struct Machine<'a, D: Disk, S> {
    pub disk: &'a mut D,
    pub state: S,
}

impl<'a, D: Disk, S> Machine<'a, D, S> {
    /// Gives the disk back, and hands out the state.
    pub fn close(self) -> S
        ensures disk { self.exit.0.now ≡ self.entry.disk.now }
        ensures state { result ≡ self.entry.state }
    {
        let Machine { disk: _, state } = self;
        state
    }
}

impl<'a, D: Disk> Stepper for Machine<'a, D, DeskState> {
    type Event = Event;

    type Reply = Reply;

    ghost takes = { λ event. IsValid event };

    ghost stands = { λ machine. Stands D.Disk machine.state machine.disk.now };

    ghost relates = { λ old event reply new.
        (new.disk.ghost_name ≡ old.disk.ghost_name)
        × AnswersWith D.Disk event reply old.state new.state old.disk.now new.disk.now };

    fn step(&mut self, _seat: u32, event: &Event) -> Reply {
        self.state.step(self.disk, event)
    }
}

impl<'a, D: Disk> TakesEvents for Machine<'a, D, DeskState> {
    ghost takes_valid = { λ event valid. valid };
}
