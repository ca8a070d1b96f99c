//! Tests of `ht_tree`, through its public calls.
#![tactic(auto)]

#[cfg(test)]
mod dues;
#[cfg(test)]
mod tables;
