//! The same long run of an office, made from a number: requests that are drawn one after another, and the sums
//! of what they are answered. Which request comes next is said in specs/Requests.antt, and what a load is in
//! specs/Loads.antt.
#![tactic(auto)]

mod answered;
mod draws;
mod laws;
mod lines;
mod loading;
mod requests;
mod sums;

pub(crate) use draws::Draws;
pub use laws::a_load_has_one_line;
pub use loading::load;
pub use sums::{Sums, write_sums};
