use ht_base::{Moment, TaskId};

/// An action of a task that is due at a moment. Dues are ordered by their moment, then their task,
/// kind and place: they are compared field by field, in the order in which the fields stand here. So the
/// order of the fields is the order in which actions are taken, and none is moved.
#[derive(Clone, Copy, Debug, PartialEq, Eq, PartialOrd, Ord)]
pub struct Due {
    pub at: Moment,
    pub task: TaskId,
    /// 0 for a deferred activation, 1 for the end of a suspension, 2 for a start deadline and 3 for
    /// a completion deadline.
    pub kind: u8,
    /// The deadline's place in the task's model, counted from 0, and 0 for the kinds 0 and 1.
    pub place: u32,
}
