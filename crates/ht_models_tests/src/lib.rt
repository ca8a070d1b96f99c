//! Tests of `ht_models`, through its public calls.
#![tactic(auto)]

#[cfg(test)]
mod reading;
