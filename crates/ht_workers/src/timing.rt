ghost use Rattle.std.specs.Prelude.{◌≡◌, MatchBool};
ghost use Rattle.ht_outside.specs.Causes.{next_count};
ghost use Rattle.ht_shared.specs.Passes.{IsOf, IsSamePass};
ghost use Rattle.ht_workers.specs.Passing.{IsOutOfTickets, PassMade};
ghost use Rattle.ht_workers.specs.Timing.{EndsTimer, Timed, timer_of};

use crate::Finish;
use ht_base::{Event, Spent};
use ht_outside::Clock;
use ht_serve::TakesEvents;
use ht_shared::{Pass, Shared};
use std::sync::Wait;

/// Makes one turn after another, at the moments of the clock, and behind each asks whether it is to
/// end. Between two turns it rests for `tick` milliseconds.
///
/// Answers how many turns it made, up to 18446744073709551615. It ends only where it was told so, or
/// where no ticket was left for a turn.
pub fn timer_loop<T: TakesEvents + Drop, C: Clock, F: Finish, R: Wait>(
    rt: &R,
    shared: &Shared<T>,
    pass: &mut Pass<T>,
    clock: &mut C,
    tick: u32,
    finish: &mut F,
) -> u64
    requires pass { IsOf shared.now pass.old }
    ensures ends { EndsTimer (PassMade T.relates pass.old pass.new) (IsOutOfTickets pass.new)
        (timer_of C.Clock F.Finish clock.old finish.old 0)
        (timer_of C.Clock F.Finish clock.new finish.new result) (F.last finish.new) }
    ensures pass { IsSamePass pass.old pass.new }
{
    let mut turns = 0;
    for _ in rt.forever() {
        if !turn(rt, shared, pass, clock, finish, &mut turns) {
            return turns;
        }
        clock.rest(tick);
    }
    unreachable!()
}

// Makes one turn. Answers whether another one is to follow.
fn turn<T: TakesEvents + Drop, C: Clock, F: Finish, R: Wait>(
    rt: &R,
    shared: &Shared<T>,
    pass: &mut Pass<T>,
    clock: &mut C,
    finish: &mut F,
    turns: &mut u64,
) -> bool
    requires pass { IsOf shared.now pass.old }
    ensures turned { MatchBool result
        (Timed (PassMade T.relates pass.old pass.new)
        (timer_of C.Clock F.Finish clock.old finish.old turns.old)
        (timer_of C.Clock F.Finish clock.new finish.new turns.new))
        (EndsTimer (PassMade T.relates pass.old pass.new) (IsOutOfTickets pass.new)
        (timer_of C.Clock F.Finish clock.old finish.old turns.old)
        (timer_of C.Clock F.Finish clock.new finish.new turns.new) (F.last finish.new)) }
    ensures pass { IsSamePass pass.old pass.new }
{
    let at = clock.now();
    let event = Event::Turn { at };
    match shared.call(rt, pass, &event) {
        Ok(_) => {
            *turns = one_more(*turns);
            !finish.done()
        }
        Err(Spent) => false,
    }
}

fn one_more(turns: u64) -> u64
    ensures { result ≡ next_count turns }
{
    turns.saturating_add(1)
}
