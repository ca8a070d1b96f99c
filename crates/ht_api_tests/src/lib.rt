//! Tests of `ht_api`, through its public calls.
#![tactic(auto)]

#[cfg(test)]
mod requests;
