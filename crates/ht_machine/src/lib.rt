//! The task machine: what each event leaves of the tables and is answered, decided as a plan that is
//! then committed.
#![tactic(auto)]

mod ahead;
mod answering;
mod applying;
mod asking;
mod commanding;
mod course;
mod creating;
mod deciding;
mod following;
mod gating;
mod laws;
mod leaving;
mod making;
mod reading;
mod sending;
mod taking;
mod turning;

pub use applying::apply;
pub use deciding::{Decision, decide};
pub use laws::{
    a_command_acts_once, a_deadline_is_taken_once, a_last_turn_leaves_the_same,
    a_record_leads_to_the_same, a_refusal_is_the_first_that_holds, a_turn_comes_to_its_end,
    a_turn_has_one_end, a_turn_may_come_in_two, an_event_has_an_outcome, one_outcome,
    the_machine_refuses_by_the_tables, the_timer_changes_no_answer, what_is_left_is_of_its_moment,
};
pub use leaving::{last_behind, moment_behind};
pub use reading::read;
pub use turning::turn;
