//! Tests of `ht_people`, through its public calls.
#![tactic(auto)]

#[cfg(test)]
mod directories;
#[cfg(test)]
mod sets;
