//! What taking turns costs: `ht_shared_bench LOCK THREADS CALLS` has 1, 2, 4 or 8 threads add one
//! to a number as often each, with LOCK 0 by the turn lock and with 1 under the mutex of the
//! standard library. It prints the number.
#![tactic(auto)]

mod mutex;
mod turns;

use ht_base::number;
use mutex::under_mutex;
use std::rt::Env;
use std::{env, io};
use turns::by_turns;

fn main(rt: HostRuntime) -> io::Result<()> {
    let [lock, threads, calls] = counts_of(&rt)?;
    let sum = if lock == 0 {
        by_turns(&rt, rt.alloc(), threads, calls)
    } else {
        Some(under_mutex(&rt, threads, calls))
    };
    match sum {
        Some(sum) => println!(rt; "{sum}"),
        None => println!(rt; "memory"),
    }
}

// What the three words count. A missing or another word counts nothing.
fn counts_of(rt: &(impl Env + AllocGlobal)) -> io::Result<[u32; 3]> {
    let mut counts = [0; 3];
    for (place, word) in env::args(rt)?.skip(1).enumerate() {
        if let Some(count) = counts.get_mut(place) {
            *count = number(word.as_bytes()).unwrap_or(0);
        }
    }
    Ok(counts)
}
