use ht_base::{LAST, Moment};
use ht_doors::SystemClock;
use ht_outside::Clock;
use std::process::Abort;

// The moment that a clock gives in another thread, after a millisecond.
fn later<C: Clock + Send>(mut clock: C) -> Moment {
    clock.rest(1);
    clock.now()
}

#[test]
fn the_clock_of_the_system_gives_moments_of_this_century(rt: HostRuntime) {
    let mut clock = SystemClock::new(&rt);
    let first = clock.now();
    let last = later(clock.fork());
    assert!(rt; first > Moment(1_577_836_800_000) && last > first && last < Moment(LAST));
}
