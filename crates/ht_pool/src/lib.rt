//! A crew: workers beside a timer at one machine, each in a thread of its own and by a pass of its own.
#![tactic(auto)]

mod crew;
mod gathering;
mod running;
mod seats;
mod threads;
mod timer;
mod worker;

pub use crew::Crew;
pub use running::run_crew;
