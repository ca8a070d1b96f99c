//! What follows on other tasks where a composite task or one of its sub tasks is changed
//! (WS-HumanTask 1.1, 4.7 and 4.8).
#![tactic(auto)]

mod above;
mod activating;
mod beginning;
mod by_hand;
mod changing;
mod checking;
mod closing;
mod composing;
mod downward;
mod finishing;
mod freeing;
mod gathering;
mod item;
mod laws;
mod making;
mod reaching;
mod resuming;
mod running;
mod spreading;
mod trees;

pub use by_hand::entry_to_make;
pub use composing::{activate, begin, close, instantiate};
pub use downward::hold;
pub use freeing::free;
pub use gathering::gather;
pub use laws::{
    above_is_a_chain_of_parents, laws_of_the_agenda, only_rows_change, tasks_only_age,
    the_end_is_always_reached, the_last_moment_is_not_looked_at, what_is_due_only_goes,
};
pub use resuming::resume;
