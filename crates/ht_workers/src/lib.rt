//! Workers, which take connections at a door and serve them, and the timer beside them: each makes its
//! calls by a pass of its own at one turn lock.
#![tactic(auto)]

mod finish;
mod line;
mod tickets;
mod timing;
mod working;

pub use finish::{Finish, Watch};
pub use line::Line;
pub use tickets::Tickets;
pub use timing::timer_loop;
pub use working::{WorkEnd, work};
