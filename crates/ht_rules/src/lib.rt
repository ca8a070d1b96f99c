//! The two tables that every operation goes by: who may do it in which states of a task, and what it
//! then changes of the task's state and of its owner. Neither takes memory.
#![tactic(auto)]

mod allowances;
mod changes;
mod judging;
mod laws;
mod sets;

pub use changes::{After, Change, OwnerAfter, next};
pub use judging::{Verdict, may};
pub use laws::tables_agree;
pub use sets::{OPEN, SUSPENDED};
