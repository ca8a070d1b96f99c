//! Tests of `ht_wire`, through its public calls.
#![tactic(auto)]

#[cfg(test)]
mod requests;
