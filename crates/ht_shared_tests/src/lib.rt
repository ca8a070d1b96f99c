//! Tests of ht_shared, with passes in one thread and in two.
#![tactic(auto)]

#[cfg(test)]
mod adding;
#[cfg(test)]
mod passes;
#[cfg(test)]
mod threads;
