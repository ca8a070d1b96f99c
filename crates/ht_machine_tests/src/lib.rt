//! Tests of `ht_machine`, through its public calls.
#![tactic(auto)]

#[cfg(test)]
mod turns;
