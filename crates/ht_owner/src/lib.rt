//! Each operation on one task: what it makes of the task's row, and what then follows on others.
#![tactic(auto)]

mod acting;
mod effects;
mod faults;
mod follow;
mod moving;
mod naming;
mod refusal;
mod suspending;

pub use acting::act;
pub use follow::Follow;
pub use refusal::ActRefusal;
