//! A journal: a list of bodies in a file, to which one is added at a time. A crash at any moment
//! leaves the bodies before an append, or these and the new one. What the bytes of a file stand for is
//! said in specs/Files.antt, and what a crash leaves in each part of an append in specs/Parts.antt.
#![tactic(auto)]

mod appending;
mod bodies;
mod body;
mod device;
mod faults;
mod journal;
mod lengthening;
mod limits;
mod opening;
mod reading;
mod settling;
mod state;
mod walking;

pub use body::Body;
pub use faults::{AppendRefusal, JournalFault, Settled};
pub use journal::{Journal, JournalOver};
pub use limits::{AHEAD, LONGEST_BODY};
pub use opening::open;
pub use state::JournalState;
pub(crate) use state::Reader;
