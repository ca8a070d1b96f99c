//! Tests of `ht_lists`, through its public calls.
#![tactic(auto)]

#[cfg(test)]
mod lists;
#[cfg(test)]
mod office;
