//! Tests of `ht_codec`, through its public calls.
#![tactic(auto)]

#[cfg(test)]
mod records;
