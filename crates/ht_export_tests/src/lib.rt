//! Tests of `ht_export`, through its public call.
#![tactic(auto)]

#[cfg(test)]
mod exports;
#[cfg(test)]
mod office;
