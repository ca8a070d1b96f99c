//! Tests of `ht_value`, through its public calls.
#![tactic(auto)]

#[cfg(test)]
mod values;
