use crate::{BoxedSheet, Name, NoticePage, Page, Roles, State, StateSet, TaskId};

/// The limit that a command would pass.
#[derive(Clone, Copy, Debug)]
pub enum Limit {
    /// `MOST_TASKS`.
    Tasks,
    /// `MOST_COMMENTS`.
    Comments,
    /// The length that the office gives its journal.
    Journal,
}

/// What a command names that isn't there.
#[derive(Clone, Copy, Debug)]
pub enum Unknown {
    Model(Name),
    Person(Name),
}

/// Why a request is refused.
#[derive(Clone, Copy, Debug)]
pub enum Refusal {
    /// The bytes are no head of a request, or end before the request does.
    Head,
    /// The head has too many bytes, or too many fields.
    Fields,
    /// The body is coded.
    Coding,
    /// The body has too many bytes.
    Body,
    /// No path of the interface is this one.
    Route,
    /// The path is one of the interface, with another method.
    Method,
    /// The body is no JSON.
    Json,
    /// The value of this key is missing or doesn't fit. `body` where the body is no object, or has a
    /// key that isn't one of the operation's.
    Field(Name),
    /// The request names no caller, or one who is no person of the directory.
    Person,
    /// The caller's device has sent a later command than this one, which had this number.
    NumberStale { last: u32 },
    /// The caller's device has sent another command under this number.
    NumberReused { last: u32 },
    /// There is no such task.
    Task(TaskId),
    /// The caller has none of the roles that the operation needs.
    Role { needs: Roles },
    /// The operation is not allowed in the task's state, but in the allowed ones.
    State { allowed: StateSet, state: State },
    Unknown(Unknown),
    /// A part that the task doesn't declare, of another kind, or that it must have and that isn't given.
    PartRefused(Name),
    /// The task has no owner, by its model.
    Ownerless,
    /// The potential owners weren't named one by one.
    ByGroup,
    /// The person is an excluded owner, or the actual owner who would become one.
    Excluded(Name),
    /// The task can't be delegated to this person, by its model.
    NotDelegatee(Name),
    /// There is no potential owner for whom the task could be activated.
    NoOwners,
    /// This part of the output must be set before the task is completed.
    NoOutput(Name),
    /// The task can't be skipped, by its model.
    NotSkipable,
    /// The end of the suspension isn't later than the moment at which the command acts.
    UntilPast,
    /// The task has no entry of this name whose sub task could be made now.
    SubRefused(Name),
    Limit(Limit),
    /// A disk failed in this call. What the event would leave is in doubt or isn't kept, or an earlier
    /// doubt still stands.
    Store,
    /// The caller's turns are spent. Nothing was changed.
    Spent,
    /// There is not enough memory. Nothing was changed.
    Memory,
}

/// What an event is answered with.
#[derive(Drop)]
pub enum Answer {
    /// The command was accepted. The state and the owner are those of the task afterwards.
    Done {
        task: TaskId,
        state: State,
        owner: Option<Name>,
    },
    /// What was due is done.
    Turned,
    Sheet(BoxedSheet),
    Page(Page),
    Notices(NoticePage),
    Refused(Refusal),
}

/// The reply to an event. `taken` is the number of timed actions that were taken before it.
#[derive(Drop)]
pub struct Reply {
    pub taken: u32,
    pub answer: Answer,
}
