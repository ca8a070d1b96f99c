//! A durable office: the task machine, whose records are kept in a journal. What a state of it is, is said in
//! specs/States.antt and specs/Keeping.antt, and what an opening finds in specs/Opening.antt.
#![tactic(auto)]

mod beginning;
mod committing;
mod counts;
mod desk;
mod desk_state;
mod doubt;
mod entry;
mod fault;
mod keeping;
mod kept;
mod laws;
mod limits;
mod opening;
mod replaying;
mod replies;
mod settling;
mod staging;
mod stepping;

pub use counts::Counts;
pub use desk::{Desk, DeskOver};
pub use desk_state::DeskState;
pub(crate) use doubt::Doubt;
pub use fault::OpenFault;
pub use laws::{
    a_desk_remembers_a_command, a_desk_takes_each_deadline_once, a_file_has_one_fault,
    a_history_of_a_desk_is_one_of_the_machine, a_step_of_a_desk_fails_with_its_disk_alone,
    a_step_of_a_desk_is_made_of_the_machines, the_journal_of_an_office_has_no_fault,
    the_records_of_an_office_lead_to_one_state, what_a_crash_leaves_of_a_step_has_no_fault,
};
pub use limits::{GREATEST_LIMIT, LEAST_LIMIT};
pub use opening::open;
