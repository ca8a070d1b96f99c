//! Tests of `ht_journal`, through its public calls.
#![tactic(auto)]

#[cfg(test)]
mod appending;
#[cfg(test)]
mod opening;
