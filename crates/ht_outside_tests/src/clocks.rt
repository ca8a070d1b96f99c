use ht_base::{LAST, Moment};
use ht_outside::{Clock, StepClock};
use std::process::Abort;

#[test]
fn a_step_clock_stops_at_the_last_moment(rt: HostRuntime) {
    let mut clock = StepClock {
        next: Moment(LAST - 1),
        step: 3,
    };
    assert_eq!(rt; clock.now(), Moment(LAST - 1));
    clock.rest(1000);
    assert_eq!(rt; clock.fork().now(), Moment(LAST));
    assert_eq!(rt; clock.now(), Moment(LAST));
    assert_eq!(rt; clock.now(), Moment(LAST));
}
