//! Tests of `ht_program`, through its public calls.
#![tactic(auto)]

#[cfg(test)]
mod commands;
#[cfg(test)]
mod journals;
#[cfg(test)]
mod requests;
#[cfg(test)]
mod runs;
#[cfg(test)]
mod services;
#[cfg(test)]
mod working;
