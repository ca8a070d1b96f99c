ghost use Rattle.std.specs.Prelude.{◌≡◌, length};
ghost use Rattle.ht_codec.specs.Reading.{Gives};
ghost use Rattle.ht_codec.specs.Records.{next_command, op, task_and_op};

use crate::CodecRefusal;
use crate::fields::{
    read_end, read_moment, read_name, read_option_moment, read_option_name, read_priority,
    read_retry, read_role,
};
use crate::names::{read_names, read_some_names};
use crate::numbers::{read_byte, read_u32};
use crate::parts::{read_parts, read_some_parts};
use crate::reader::Reader;
use crate::texts::read_some_text;
use ht_base::{Command, Op};
use std::alloc::Global;

#[tactic(auto, unfolding(crate::specs::Records::op))]
fn read_op(r: &mut Reader<'_>) -> Result<Op, CodecRefusal>
    ensures { Gives op.read r.old r.new result }
{
    let at = r.place();
    match read_byte(r)? {
        1 => Ok(Op::Create),
        2 => Ok(Op::Claim),
        3 => Ok(Op::Start),
        4 => Ok(Op::Stop),
        5 => Ok(Op::Release),
        6 => Ok(Op::Delegate),
        7 => Ok(Op::Forward),
        8 => Ok(Op::Nominate),
        9 => Ok(Op::Activate),
        10 => Ok(Op::SetRole),
        11 => Ok(Op::SetPriority),
        12 => Ok(Op::Suspend),
        13 => Ok(Op::SuspendUntil),
        14 => Ok(Op::Resume),
        15 => Ok(Op::SetOutput),
        16 => Ok(Op::Complete),
        17 => Ok(Op::Fail),
        18 => Ok(Op::Skip),
        19 => Ok(Op::Exit),
        20 => Ok(Op::Error),
        21 => Ok(Op::AddComment),
        22 => Ok(Op::InstantiateSubTask),
        _ => Err(CodecRefusal::Tag(at)),
    }
}

#[tactic(auto, unfolding(crate::specs::Records::task_and_op))]
pub(crate) fn read_task_and_op(r: &mut Reader<'_>) -> Result<(u32, Op), CodecRefusal>
    ensures { Gives task_and_op.read r.old r.new result }
{
    let at = r.place();
    let task = read_u32(r)?;
    let op = read_op(r)?;
    if !op.suits(task) {
        return Err(CodecRefusal::Range(at));
    }
    Ok((task, op))
}

// ---- what stands behind an operation's byte

fn read_create(r: &mut Reader<'_>, alloc: Global) -> Result<Command, CodecRefusal>
    ensures { Gives (next_command Op.Create).read r.old r.new result }
{
    let model = read_option_name(r)?;
    let input = read_parts(r, alloc)?;
    let activate_at = read_option_moment(r)?;
    Ok(Command::Create {
        model,
        input,
        activate_at,
    })
}

fn read_forward(r: &mut Reader<'_>, alloc: Global) -> Result<Command, CodecRefusal>
    ensures { Gives (next_command Op.Forward).read r.old r.new result }
{
    let persons = read_some_names(r, alloc)?;
    Ok(Command::Forward { persons })
}

fn read_nominate(r: &mut Reader<'_>, alloc: Global) -> Result<Command, CodecRefusal>
    ensures { Gives (next_command Op.Nominate).read r.old r.new result }
{
    let persons = read_some_names(r, alloc)?;
    Ok(Command::Nominate { persons })
}

fn read_set_role(r: &mut Reader<'_>, alloc: Global) -> Result<Command, CodecRefusal>
    ensures { Gives (next_command Op.SetRole).read r.old r.new result }
{
    let role = read_role(r)?;
    let persons = read_names(r, alloc)?;
    Ok(Command::SetRole { role, persons })
}

fn read_set_output(r: &mut Reader<'_>, alloc: Global) -> Result<Command, CodecRefusal>
    ensures { Gives (next_command Op.SetOutput).read r.old r.new result }
{
    let output = read_some_parts(r, alloc)?;
    Ok(Command::SetOutput { output })
}

fn read_complete(r: &mut Reader<'_>, alloc: Global) -> Result<Command, CodecRefusal>
    ensures { Gives (next_command Op.Complete).read r.old r.new result }
{
    let output = read_parts(r, alloc)?;
    Ok(Command::Complete { output })
}

/// The command of this operation. A look at a task is none.
pub(crate) fn read_command(
    r: &mut Reader<'_>,
    alloc: Global,
    op: Op,
) -> Result<Command, CodecRefusal>
    ensures { Gives (next_command op).read r.old r.new result }
{
    match op {
        Op::Create => read_create(r, alloc),
        Op::Claim => Ok(Command::Claim),
        Op::Start => Ok(Command::Start),
        Op::Stop => Ok(Command::Stop),
        Op::Release => Ok(Command::Release),
        Op::Delegate => Ok(Command::Delegate {
            person: read_name(r)?,
        }),
        Op::Forward => read_forward(r, alloc),
        Op::Nominate => read_nominate(r, alloc),
        Op::Activate => Ok(Command::Activate),
        Op::SetRole => read_set_role(r, alloc),
        Op::SetPriority => Ok(Command::SetPriority {
            priority: read_priority(r)?,
        }),
        Op::Suspend => Ok(Command::Suspend),
        Op::SuspendUntil => Ok(Command::SuspendUntil { end: read_end(r)? }),
        Op::Resume => Ok(Command::Resume),
        Op::SetOutput => read_set_output(r, alloc),
        Op::Complete => read_complete(r, alloc),
        Op::Fail => Ok(Command::Fail {
            fault: read_option_name(r)?,
        }),
        Op::Skip => Ok(Command::Skip),
        Op::Exit => Ok(Command::Exit),
        Op::Error => Ok(Command::Error),
        Op::AddComment => Ok(Command::AddComment {
            text: read_some_text(r, alloc)?,
        }),
        Op::InstantiateSubTask => Ok(Command::InstantiateSubTask { sub: read_name(r)? }),
        Op::Get => Err(CodecRefusal::Tag(r.place())),
    }
}
