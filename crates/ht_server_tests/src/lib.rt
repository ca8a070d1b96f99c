//! Tests of `ht_server`, through its public call.
#![tactic(auto)]

#[cfg(test)]
mod doors;
#[cfg(test)]
mod offices;
#[cfg(test)]
mod refusals;
#[cfg(test)]
mod serving;
