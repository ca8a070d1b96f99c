//! What a command costs an office: `ht_desk_bench WAY CREATES CLAIMS` creates tasks and claims them. By way 0
//! the tables are in memory alone, by way 1 the office is durable over a disk with room, and by way 2 over a
//! disk in memory that keeps its history. It prints how many commands were accepted. `ht_desk_bench 3 FILE`
//! opens the journal of an office with the built-in texts, and prints whether it was opened.
#![tactic(auto)]

mod office;

use ht_base::number;
use ht_outside::FileDisk;
use office::{accepted, is_opened};
use std::rt::Env;
use std::{env, io};

fn main(rt: HostRuntime) -> io::Result<()> {
    let (counts, name) = words_of(&rt)?;
    let [way, creates, claims] = counts;
    if way == 3 {
        let mut disk = FileDisk::new(&rt);
        let is_open = is_opened(rt.alloc(), &mut disk, &name);
        return println!(rt; "{is_open}");
    }
    match accepted(rt.alloc(), way, creates, claims) {
        Some(count) => println!(rt; "{count}"),
        None => println!(rt; "there is not enough memory"),
    }
}

// What the first three words count, and the second word. A missing or another word counts nothing.
fn words_of(rt: &(impl Env + AllocGlobal)) -> io::Result<([u32; 3], String)> {
    let mut counts = [0; 3];
    let mut name = String::new(rt.alloc());
    for (place, word) in env::args(rt)?.skip(1).enumerate() {
        if let Some(count) = counts.get_mut(place) {
            *count = number(word.as_bytes()).unwrap_or(0);
        }
        if place == 1 {
            name = word;
        }
    }
    Ok((counts, name))
}
