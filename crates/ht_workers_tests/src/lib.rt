//! Tests of `ht_workers`, through its public calls.
#![tactic(auto)]

#[cfg(test)]
mod offices;
#[cfg(test)]
mod threads;
#[cfg(test)]
mod workers;
