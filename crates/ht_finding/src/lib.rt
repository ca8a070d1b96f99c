//! Whom a people assignment finds in the environment of a task (WS-HumanTask 1.1, 3.1 and 3.5), and
//! what is given for the parts of a task: the values that it makes, or the part for which it is refused.
#![tactic(auto)]

mod finding;
mod giving;

pub use finding::{found, without};
pub use giving::{refused_part, values_given};
