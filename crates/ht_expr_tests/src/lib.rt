//! Tests of `ht_expr`, through its public calls.
#![tactic(auto)]

#[cfg(test)]
mod kinds;
#[cfg(test)]
mod reading;
