use ht_base::Moment;
use ht_tree::Plan;

/// What is to be done if the record in doubt turns out to be there.
#[derive(Drop)]
pub(crate) struct Doubt {
    pub(crate) plan: Plan,
    pub(crate) at: Moment,
    // The record is one of a command.
    pub(crate) asked: bool,
}
