//! What a person is shown of the tables: the tasks in which the person has a role, the notifications
//! that were sent to the person, and the sheet of a task.
#![tactic(auto)]

mod asking;
mod best;
mod keys;
mod listing;
mod naming;
mod offering;
mod sheets;
mod telling;

pub use listing::my_tasks;
pub use naming::name_or_none;
pub use sheets::sheet;
pub use telling::notices;
