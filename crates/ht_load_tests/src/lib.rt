//! Tests of `ht_load`, through its public calls.
#![tactic(auto)]

#[cfg(test)]
mod loads;
