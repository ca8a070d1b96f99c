//! Graphs of places, each of which leads to some: who is reached from where, which places reach
//! themselves, and how long chains are.
#![tactic(auto)]

mod cycles;
mod depth;
mod graph;
mod walking;

pub use cycles::first_cycle;
pub use depth::is_deeper;
pub use graph::Graph;
pub use walking::{is_marked, reached_from};
