ghost use Rattle.std.specs.Prelude.{◌≡◌, IfOk};
ghost use Rattle.ht_base.specs.Events.{op_of};

use crate::{End, Memory, Moment, Name, Names, Op, Parts, Query, Retry, RoleList, TaskId, Txt};
use std::alloc::Global;

/// What a command does (WS-HumanTask 1.1, 7.1.1 "Participant operations").
#[derive(Drop)]
pub enum Command {
    /// A new task of a model, or else of the first, created by the caller, with what is given for its
    /// input. It is activated at a moment, or at once where none is given or the moment has come.
    Create {
        model: Option<Name>,
        input: Parts,
        activate_at: Option<Moment>,
    },
    /// The caller becomes the actual owner of a ready task.
    Claim,
    /// The task is worked on.
    Start,
    /// The task isn't worked on any more. It keeps its owner.
    Stop,
    /// The task has no owner any more.
    Release,
    /// A person becomes the actual owner.
    Delegate {
        person: Name,
    },
    /// The task is handed on to other potential owners.
    Forward {
        persons: Names,
    },
    /// A created task gets its potential owners.
    Nominate {
        persons: Names,
    },
    /// A created task is activated.
    Activate,
    /// The persons of a role are replaced.
    SetRole {
        role: RoleList,
        persons: Names,
    },
    /// 0, the highest, to `LOWEST_PRIORITY`.
    SetPriority {
        priority: u8,
    },
    /// The task can't be worked on until it is resumed.
    Suspend,
    /// The task can't be worked on until it is resumed, or until this end.
    SuspendUntil {
        end: End,
    },
    /// The task is again as it was before it was suspended.
    Resume,
    /// Parts of the output are set, at least one.
    SetOutput {
        output: Parts,
    },
    /// Parts of the output are set, and the task ends well.
    Complete {
        output: Parts,
    },
    /// The task ends with a fault, which may have a name.
    Fail {
        fault: Option<Name>,
    },
    /// The task isn't needed any more.
    Skip,
    /// The task ends by an operator.
    Exit,
    /// The task ends by an operator, as one that went wrong.
    Error,
    /// A text of 1 to `LONGEST_TEXT` bytes is noted on the task.
    AddComment {
        text: Txt,
    },
    /// The sub task of the entry with this name is made.
    InstantiateSubTask {
        sub: Name,
    },
}

impl Command {
    /// The operation that it asks for.
    pub fn op(&self) -> Op
        ensures { result ≡ op_of self.now }
    {
        match self {
            Command::Create { .. } => Op::Create,
            Command::Claim => Op::Claim,
            Command::Start => Op::Start,
            Command::Stop => Op::Stop,
            Command::Release => Op::Release,
            Command::Delegate { .. } => Op::Delegate,
            Command::Forward { .. } => Op::Forward,
            Command::Nominate { .. } => Op::Nominate,
            Command::Activate => Op::Activate,
            Command::SetRole { .. } => Op::SetRole,
            Command::SetPriority { .. } => Op::SetPriority,
            Command::Suspend => Op::Suspend,
            Command::SuspendUntil { .. } => Op::SuspendUntil,
            Command::Resume => Op::Resume,
            Command::SetOutput { .. } => Op::SetOutput,
            Command::Complete { .. } => Op::Complete,
            Command::Fail { .. } => Op::Fail,
            Command::Skip => Op::Skip,
            Command::Exit => Op::Exit,
            Command::Error => Op::Error,
            Command::AddComment { .. } => Op::AddComment,
            Command::InstantiateSubTask { .. } => Op::InstantiateSubTask,
        }
    }

    pub fn copy(&self, alloc: Global) -> Result<Command, Memory>
        ensures { IfOk result (λ c. c ≡ self.now) }
    {
        Ok(match self {
            Command::Create {
                model,
                input,
                activate_at,
            } => Command::Create {
                model: *model,
                input: input.copy(alloc)?,
                activate_at: *activate_at,
            },
            Command::Claim => Command::Claim,
            Command::Start => Command::Start,
            Command::Stop => Command::Stop,
            Command::Release => Command::Release,
            Command::Delegate { person } => Command::Delegate { person: *person },
            Command::Forward { persons } => Command::Forward {
                persons: persons.copy(alloc)?,
            },
            Command::Nominate { persons } => Command::Nominate {
                persons: persons.copy(alloc)?,
            },
            Command::Activate => Command::Activate,
            Command::SetRole { role, persons } => Command::SetRole {
                role: *role,
                persons: persons.copy(alloc)?,
            },
            Command::SetPriority { priority } => Command::SetPriority {
                priority: *priority,
            },
            Command::Suspend => Command::Suspend,
            Command::SuspendUntil { end } => Command::SuspendUntil { end: *end },
            Command::Resume => Command::Resume,
            Command::SetOutput { output } => Command::SetOutput {
                output: output.copy(alloc)?,
            },
            Command::Complete { output } => Command::Complete {
                output: output.copy(alloc)?,
            },
            Command::Fail { fault } => Command::Fail { fault: *fault },
            Command::Skip => Command::Skip,
            Command::Exit => Command::Exit,
            Command::Error => Command::Error,
            Command::AddComment { text } => Command::AddComment {
                text: text.copy(alloc)?,
            },
            Command::InstantiateSubTask { sub } => Command::InstantiateSubTask { sub: *sub },
        })
    }
}

/// One thing that happens to the task machine.
#[derive(Drop)]
pub enum Event {
    /// The time has come to this moment: what is due by then is done.
    Turn {
        at: Moment,
    },
    /// A caller asks for a change at a moment, with a number where it may be sent again. `task` is 0
    /// exactly for a create.
    Ask {
        at: Moment,
        caller: Name,
        retry: Option<Retry>,
        task: TaskId,
        command: Command,
    },
    /// A caller asks what the tables hold. It changes nothing.
    Read {
        caller: Name,
        query: Query,
    },
}

impl Event {
    pub fn copy(&self, alloc: Global) -> Result<Event, Memory>
        ensures { IfOk result (λ e. e ≡ self.now) }
    {
        match self {
            Event::Turn { at } => Ok(Event::Turn { at: *at }),
            Event::Ask {
                at,
                caller,
                retry,
                task,
                command,
            } => Ok(Event::Ask {
                at: *at,
                caller: *caller,
                retry: *retry,
                task: *task,
                command: command.copy(alloc)?,
            }),
            Event::Read { caller, query } => Ok(Event::Read {
                caller: *caller,
                query: *query,
            }),
        }
    }
}
