//! What plans of many rows cost: `ht_bench TASKS PUTS LOOKS` plans as many tasks, marks the plan, puts
//! rows of them again in a scattered order, looks at as many rows, and goes back to the mark. It prints
//! the sum of the priorities that it saw.
#![tactic(auto)]

mod plans;

use ht_base::number;
use plans::measured;
use std::rt::Env;
use std::{env, io};

fn main(rt: HostRuntime) -> io::Result<()> {
    let [tasks, puts, looks] = counts_of(&rt)?;
    match measured(rt.alloc(), tasks, puts, looks) {
        Ok(sum) => println!(rt; "{sum}"),
        Err(refusal) => println!(rt; "{refusal}"),
    }
}

// What the first three words count. A missing or another word counts nothing.
fn counts_of(rt: &(impl Env + AllocGlobal)) -> io::Result<[u32; 3]> {
    let mut counts = [0; 3];
    for (place, word) in env::args(rt)?.skip(1).enumerate() {
        if let Some(count) = counts.get_mut(place) {
            *count = number(word.as_bytes()).unwrap_or(0);
        }
    }
    Ok(counts)
}
