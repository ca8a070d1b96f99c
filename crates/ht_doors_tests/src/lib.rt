//! Tests of `ht_doors`, through its public calls.
#![tactic(auto)]

#[cfg(test)]
mod clocks;
#[cfg(test)]
mod echoing;
#[cfg(test)]
mod memory;
#[cfg(test)]
mod tcp;
