//! What is due, in order: the deferred activations, the ends of suspensions and the deadlines of
//! tasks. A queue keeps them so that the least is at hand, and changes without memory.
#![tactic(auto)]

mod block;
mod blocks;
mod due;
mod finding;
mod laws;
mod least;
mod merging;
mod queue;
mod sorting;

pub use due::Due;
pub use laws::{
    a_due_is_put_in, a_due_is_taken_out, dues_are_in_one_order, dues_determine_their_list,
    many_dues_change, the_first_is_the_least, the_next_is_the_least_after,
};
pub use least::lesser;
pub use queue::DueQueue;
pub use sorting::in_order;
