//! Tests of `ht_base`, through its public calls.
#![tactic(auto)]

#[cfg(test)]
mod events;
#[cfg(test)]
mod types;
