//! What is due first, and what comes of a deadline that is missed: who is told of it, and to whom the
//! task is given (WS-HumanTask 1.1, 4.9).
#![tactic(auto)]

mod first_due;
mod laws;
mod notifying;
mod reassigning;
mod seen;
mod taking;
mod triggering;

pub use first_due::first;
pub use laws::{
    a_deadline_is_taken_in_one_way, a_deadline_leaves_the_rest, a_deadline_looks_at_no_last_moment,
    a_due_deadline_may_be_taken,
};
pub use taking::deadline;
