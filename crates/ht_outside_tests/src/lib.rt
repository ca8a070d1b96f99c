//! Tests of `ht_outside`, through its public calls.
#![tactic(auto)]

#[cfg(test)]
mod clocks;
#[cfg(test)]
mod disks;
#[cfg(test)]
mod streams;
