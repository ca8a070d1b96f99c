//! Tests of `ht_desk`, through its public calls.
#![tactic(auto)]

#[cfg(test)]
mod offices;
#[cfg(test)]
mod opening;
#[cfg(test)]
mod stepping;
