use crate::{Ids, Moment, Name, Names, Parts, ShownComments, State, TaskId};

/// What is told of one task (WS-HumanTask 1.1, 7.1.1 "getTaskDetails"): its persons and its model by
/// name, and its parts as a request gives them.
#[derive(Drop)]
pub struct Sheet {
    pub administrators: Names,
    /// Whether the potential owners were assigned by a group, or as everybody.
    pub by_group: bool,
    pub comments: ShownComments,
    pub created: Moment,
    pub excluded_owners: Names,
    pub fault: Option<Name>,
    pub initiator: Name,
    pub input: Parts,
    /// Who owned the task before it ended.
    pub last_owner: Option<Name>,
    pub model: Name,
    pub output: Parts,
    pub owner: Option<Name>,
    pub parent: Option<TaskId>,
    pub potential_owners: Names,
    /// 0, the highest, to `LOWEST_PRIORITY`.
    pub priority: u8,
    pub stakeholders: Names,
    pub started: bool,
    pub state: State,
    /// Its sub tasks, in ascending order.
    pub subs: Ids,
    pub task: TaskId,
    /// When its suspension ends.
    pub until: Option<Moment>,
    /// When it is activated.
    pub waits: Option<Moment>,
}
