use ht_base::{
    Command, End, Event, Memory, Moment, Name, Names, Op, Parts, Record, Retry, RoleList, Scalar,
    TaskId, Txt,
};
use std::alloc::Global;
use std::test::Fail;

const OPERATIONS: [Op; 22] = [
    Op::Create,
    Op::Claim,
    Op::Start,
    Op::Stop,
    Op::Release,
    Op::Delegate,
    Op::Forward,
    Op::Nominate,
    Op::Activate,
    Op::SetRole,
    Op::SetPriority,
    Op::Suspend,
    Op::SuspendUntil,
    Op::Resume,
    Op::SetOutput,
    Op::Complete,
    Op::Fail,
    Op::Skip,
    Op::Exit,
    Op::Error,
    Op::AddComment,
    Op::InstantiateSubTask,
];

const RETRY: Retry = Retry {
    device: 3,
    number: 7,
};

// The operation and the retry of a copy of an event by which this command is asked.
fn copied_event(
    alloc: Global,
    caller: Name,
    command: Command,
) -> Result<Option<(Op, Option<Retry>)>, Fail> {
    let event = Event::Ask {
        at: Moment(1000),
        caller,
        retry: Some(RETRY),
        task: TaskId(1),
        command,
    };
    let copy = event.copy(alloc)?;
    Ok(op_asked(&copy))
}

// The same of a record of it.
fn copied_record(
    alloc: Global,
    caller: Name,
    command: Command,
) -> Result<Option<(Op, Option<Retry>)>, Fail> {
    let record = Record::Asked {
        at: Moment(1000),
        caller,
        retry: Some(RETRY),
        task: TaskId(1),
        command,
    };
    let copy = record.copy(alloc)?;
    Ok(op_kept(&copy))
}

fn op_kept(record: &Record) -> Option<(Op, Option<Retry>)> {
    match record {
        Record::Asked { retry, command, .. } => Some((command.op(), *retry)),
        _ => None,
    }
}

// A copy of a command of this operation.
fn copied_command(alloc: Global, op: Op, name: Name) -> Result<Command, Fail> {
    let command = command_of(alloc, op, name)?;
    Ok(command.copy(alloc)?)
}

#[test]
fn events_and_records_are_copied(rt: HostRuntime) -> Result<(), Fail> {
    let anna = Name::of(b"anna").ok_or("a name")?;
    for op in OPERATIONS {
        let asked = copied_event(rt.alloc(), anna, copied_command(rt.alloc(), op, anna)?)?;
        assert_eq!(rt; asked, Some((op, Some(RETRY))));
        let kept = copied_record(rt.alloc(), anna, command_of(rt.alloc(), op, anna)?)?;
        assert_eq!(rt; kept, Some((op, Some(RETRY))));
    }
    Ok(())
}

// A command of this operation, which names this person.
fn command_of(alloc: Global, op: Op, name: Name) -> Result<Command, Fail> {
    match plain_command(op) {
        Some(command) => Ok(command),
        None => command_with(alloc, op, name),
    }
}

fn plain_command(op: Op) -> Option<Command> {
    Some(match op {
        Op::Claim => Command::Claim,
        Op::Start => Command::Start,
        Op::Stop => Command::Stop,
        Op::Release => Command::Release,
        Op::Activate => Command::Activate,
        Op::SetPriority => Command::SetPriority { priority: 10 },
        Op::Suspend => Command::Suspend,
        Op::SuspendUntil => Command::SuspendUntil {
            end: End::At(Moment(5000)),
        },
        Op::Resume => Command::Resume,
        Op::Skip => Command::Skip,
        Op::Exit => Command::Exit,
        Op::Error => Command::Error,
        _ => return None,
    })
}

fn command_with(alloc: Global, op: Op, name: Name) -> Result<Command, Fail> {
    Ok(match op {
        Op::Create => Command::Create {
            model: Some(name),
            input: one_part(alloc, name)?,
            activate_at: Some(Moment(5000)),
        },
        Op::Delegate => Command::Delegate { person: name },
        Op::Forward => Command::Forward {
            persons: one_name(alloc, name)?,
        },
        Op::Nominate => Command::Nominate {
            persons: one_name(alloc, name)?,
        },
        Op::SetRole => Command::SetRole {
            role: RoleList::Stakeholders,
            persons: one_name(alloc, name)?,
        },
        Op::SetOutput => Command::SetOutput {
            output: one_part(alloc, name)?,
        },
        Op::Complete => Command::Complete {
            output: one_part(alloc, name)?,
        },
        Op::Fail => Command::Fail { fault: Some(name) },
        Op::AddComment => Command::AddComment {
            text: Txt::of(alloc, "soon")?,
        },
        Op::InstantiateSubTask => Command::InstantiateSubTask { sub: name },
        _ => return Err(Fail::from("no such command")),
    })
}

fn one_name(alloc: Global, name: Name) -> Result<Names, Memory> {
    let mut names = Names::new(alloc);
    names.push(name)?;
    Ok(names)
}

fn one_part(alloc: Global, name: Name) -> Result<Parts, Memory> {
    let mut parts = Parts::new(alloc);
    parts.push(name, Scalar::Text(Txt::of(alloc, "soon")?))?;
    Ok(parts)
}

fn op_asked(event: &Event) -> Option<(Op, Option<Retry>)> {
    match event {
        Event::Ask { retry, command, .. } => Some((command.op(), *retry)),
        Event::Read { .. } | Event::Turn { .. } => None,
    }
}
