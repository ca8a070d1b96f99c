//! Which tasks stand under a key: for each key the list of them, ascending by number, which changes
//! without memory where room was made. A list is kept as it is, or as a set of bits.
#![tactic(auto)]

mod asking;
mod finding;
mod index;
mod listed;
mod moves;
mod moving;
mod rest;
mod set_moves;
mod task_sets;
mod tasks;
mod words;

pub use finding::put_task;
pub use index::Index;
pub use moves::Move;
pub use rest::Rest;
pub use task_sets::TaskSets;
pub use tasks::Tasks;
