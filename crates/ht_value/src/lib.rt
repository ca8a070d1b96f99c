//! The value of an expression (WS-HumanTask 1.1, 3.5) where the values of a task's parts, its priority,
//! its initiator and its sub tasks are given. It takes no memory.
#![tactic(auto)]

mod counting;
mod environment;
mod evaluating;
mod expression;
mod laws;
mod operating;

pub use environment::{Env, Subs};
pub use expression::{int, truth};
pub use laws::each_kind_has_a_value;
