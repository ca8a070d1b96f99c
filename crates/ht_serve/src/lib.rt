//! One connection: its requests are called, in order, and their replies written; and who makes the
//! calls.
#![tactic(auto)]

mod alone;
mod answering;
mod caller;
mod ending;
mod gate;
mod serving;
mod texts;

pub use alone::Alone;
pub use caller::{Caller, TakesEvents};
pub use ending::Ending;
pub use gate::{Gate, Quiet};
pub use serving::serve_connection;
