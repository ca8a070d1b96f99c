//! The turn lock: any number of threads make steps of one machine, one after another, and each
//! of them knows that all their calls are one legal history.
#![tactic(auto)]

mod acting;
mod board;
mod entering;
mod laws;
mod numbers;
mod opening;
mod pass;
mod refusals;
mod shared;
mod turning;
mod view;

pub use board::Turns;
pub use laws::{free_lock, last_ticket};
pub use pass::Pass;
pub use refusals::{MakeRefusal, SplitRefusal};
pub use shared::Shared;
pub use view::View;
