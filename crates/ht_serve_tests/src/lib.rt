//! Tests of `ht_serve`, through its public calls.
#![tactic(auto)]

#[cfg(test)]
mod connections;
