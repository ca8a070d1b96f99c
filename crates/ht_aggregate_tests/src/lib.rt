//! Tests of `ht_aggregate`, through its public calls.
#![tactic(auto)]

#[cfg(test)]
mod aggregates;
