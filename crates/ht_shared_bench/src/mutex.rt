use std::sync::{Mutex, Wait};
use std::thread::{Threads, join};

// Adds one so often.
fn add<R: Wait>(rt: &R, sum: &Mutex<u64>, calls: u32) {
    for _ in 0..calls {
        let mut held = sum.lock(rt);
        *held = held.wrapping_add(1);
    }
}

fn add_in_two<R: Threads + Wait + Sync>(rt: &R, sum: &Mutex<u64>, calls: u32) {
    join(rt, || add(rt, sum, calls), || add(rt, sum, calls));
}

fn add_in_four<R: Threads + Wait + Sync>(rt: &R, sum: &Mutex<u64>, calls: u32) {
    join(
        rt,
        || add_in_two(rt, sum, calls),
        || add_in_two(rt, sum, calls),
    );
}

fn add_in_eight<R: Threads + Wait + Sync>(rt: &R, sum: &Mutex<u64>, calls: u32) {
    join(
        rt,
        || add_in_four(rt, sum, calls),
        || add_in_four(rt, sum, calls),
    );
}

/// The number to which 1, 2, 4 or 8 threads add one so often each.
pub(crate) fn under_mutex<R: Threads + Wait + Sync>(rt: &R, threads: u32, calls: u32) -> u64 {
    let sum = Mutex::new(0);
    match threads {
        1 => add(rt, &sum, calls),
        2 => add_in_two(rt, &sum, calls),
        4 => add_in_four(rt, &sum, calls),
        _ => add_in_eight(rt, &sum, calls),
    }
    sum.into_inner()
}
