ghost use Rattle.std.specs.Prelude.{◌≡◌};
ghost use Rattle.ht_shared.specs.Passes.{IsOf};
ghost use Rattle.ht_pool.specs.Gathering.{HasTurned};

use ht_outside::Clock;
use ht_serve::TakesEvents;
use ht_shared::{Pass, Shared};
use ht_workers::{Tickets, Watch, timer_loop};
use std::sync::Wait;

/// Work for a thread, which has all that it needs. A closure for a thread can't hold a pass itself beside
/// the workers' doors, and can hold a task.
pub(crate) trait Task {
    ghost can_run: { Self → Type 0 };

    ghost has_run: { Self → Self → Type 0 };

    fn run(&mut self)
        requires { can_run self.old }
        ensures { has_run self.old self.new };
}

/// The timer, which makes turns until no worker is at work.
#[derive(Drop)]
pub(crate) struct Timer<'a, T: TakesEvents + Drop, C: Clock, R: Wait> {
    pub(crate) rt: &'a R,
    pub(crate) shared: &'a Shared<T>,
    pub(crate) tickets: &'a Tickets,
    pub(crate) tick: u32,
    pub(crate) clock: C,
    pub(crate) pass: Pass<T>,
}

impl<'a, T: TakesEvents + Drop, C: Clock, R: Wait> Task for Timer<'a, T, C, R> {
    ghost can_run = { λ t. IsOf t.shared.now t.pass };

    ghost has_run = { λ t u. HasTurned T.relates t.pass u.pass };

    fn run(&mut self) {
        let mut finish = Watch::new(self.tickets);
        timer_loop(
            self.rt,
            self.shared,
            &mut self.pass,
            &mut self.clock,
            self.tick,
            &mut finish,
        );
    }
}
