use crate::{Role, State, TaskId};

/// Which tasks a list has, by their state.
#[derive(Clone, Copy, Debug)]
pub enum Which {
    /// Those that haven't ended.
    Live,
    All,
    /// Those in this state.
    Only(State),
}

/// What a caller asks of the tables (WS-HumanTask 1.1, 7.1.1 "getTaskDetails", 7.1.2 "getMyTasks").
#[derive(Clone, Copy)]
pub enum Query {
    /// The sheet of a task.
    Sheet(TaskId),
    /// A part of the tasks in which the caller has this role, or any generic human role where none is
    /// given: `from` of them are passed over, and at most `count` are told, 1 to `MOST_LISTED`.
    Tasks {
        role: Option<Role>,
        which: Which,
        from: u32,
        count: u32,
    },
    /// A part of the notifications that the caller was sent: `from` of them are passed over, and at most
    /// `count` are told, 1 to `MOST_LISTED`.
    Notices {
        from: u32,
        count: u32,
    },
}
