use ht_base::{Moment, Name, Persons, TaskId};

/// A notification that an escalation sent (WS-HumanTask 1.1, 4.9). Its number is its place, counted
/// from 1.
#[derive(Drop)]
pub struct Notice {
    pub task: TaskId,
    pub deadline: Name,
    pub escalation: Name,
    /// The due moment of the deadline.
    pub moment: Moment,
    pub recipients: Persons,
}
