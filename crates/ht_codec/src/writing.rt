ghost use Rattle.std.specs.Prelude.{◌≡◌, ◌≤◌, ◌++◌, ◌∷◌, IfOk, IfSome, OnOk};
ghost use Rattle.ht_base.specs.Events.{AreGiven, IsCommand};
ghost use Rattle.ht_base.specs.Moment.{last_moment};
ghost use Rattle.ht_base.specs.Records.{record_of};
ghost use Rattle.ht_codec.specs.Records.{IsRecord, Spells, command_line, creation, entry, op_byte};

use crate::writing_fields::{
    write_byte, write_end, write_moment, write_name, write_names, write_opening_text,
    write_option_moment, write_option_name, write_parts, write_priority, write_retry, write_role,
    write_some_names, write_some_parts, write_some_text, write_u32,
};
use ht_base::{Bytes, Command, Memory, Moment, Name, Op, Parts, Record};
use std::alloc::Global;

/// The bytes for which there is room at once.
const FIRST_ROOM: u32 = 64;

/// The one spelling of the record.
pub fn write(alloc: Global, entry: &Record) -> Result<Bytes, Memory>
    requires { IsRecord (record_of entry.now) }
    ensures { IfOk result (λ b. Spells (record_of entry.now) b.items) }
{
    let mut out = Bytes::new(alloc);
    out.reserve(FIRST_ROOM)?;
    write_record(&mut out, entry)?;
    Ok(out)
}

#[tactic(auto, unfolding(crate::specs::Records::entry, crate::specs::Records::kind, crate::specs::Records::op, crate::specs::Records::task_and_op))]
fn write_record(out: &mut Bytes, kept: &Record) -> Result<(), Memory>
    requires { IsRecord (record_of kept.now) }
    ensures fits { OnOk result (entry.Fits (record_of kept.now)) }
    ensures bytes { OnOk result (out.new.items ≡ out.old.items ++ entry.text (record_of kept.now)) }
{
    match kept {
        Record::Opening { models, people } => {
            write_byte(out, 0)?;
            write_opening_text(out, models)?;
            write_opening_text(out, people)
        }
        Record::Turn { at } => {
            write_byte(out, 1)?;
            write_moment(out, *at)
        }
        Record::Asked {
            at,
            caller,
            retry,
            task,
            command,
        } => {
            write_byte(out, 2)?;
            write_moment(out, *at)?;
            write_name(out, caller)?;
            write_retry(out, *retry)?;
            write_u32(out, task.0)?;
            write_command(out, command)?;
            Ok(())
        }
    }
}

/// The operation's byte, and what stands behind it.
fn write_command(out: &mut Bytes, command: &Command) -> Result<(), Memory>
    requires { IsCommand command.now }
    ensures fits { OnOk result ((command_line command.now).Fits) }
    ensures bytes { OnOk result (out.new.items
        ≡ out.old.items
        ++ (op_byte (command_line command.now).head ∷ (command_line command.now).text)) }
{
    write_byte(out, op_byte(command.op()))?;
    write_fields(out, command)?;
    Ok(())
}

fn op_byte(op: Op) -> u8
    ensures { result ≡ op_byte op }
{
    match op {
        Op::Create => 1,
        Op::Claim => 2,
        Op::Start => 3,
        Op::Stop => 4,
        Op::Release => 5,
        Op::Delegate => 6,
        Op::Forward => 7,
        Op::Nominate => 8,
        Op::Activate => 9,
        Op::SetRole => 10,
        Op::SetPriority => 11,
        Op::Suspend => 12,
        Op::SuspendUntil => 13,
        Op::Resume => 14,
        Op::SetOutput => 15,
        Op::Complete => 16,
        Op::Fail => 17,
        Op::Skip => 18,
        Op::Exit => 19,
        Op::Error => 20,
        Op::AddComment => 21,
        Op::InstantiateSubTask => 22,
        Op::Get => 0,
    }
}

fn write_create(
    out: &mut Bytes,
    model: &Option<Name>,
    input: &Parts,
    activate_at: &Option<Moment>,
) -> Result<(), Memory>
    requires given { AreGiven input.now }
    requires moment { IfSome activate_at.now (λ m. m.0 ≤ last_moment) }
    ensures fits { OnOk result (creation.Fits (model.now, (input.now, activate_at.now))) }
    ensures bytes { OnOk result
        (out.new.items ≡ out.old.items ++ creation.text (model.now, (input.now, activate_at.now))) }
{
    write_option_name(out, model)?;
    write_parts(out, input)?;
    write_option_moment(out, activate_at)?;
    Ok(())
}

fn write_fields(out: &mut Bytes, command: &Command) -> Result<(), Memory>
    requires { IsCommand command.now }
    ensures fits { OnOk result ((command_line command.now).Fits) }
    ensures bytes { OnOk result (out.new.items ≡ out.old.items ++ (command_line command.now).text) }
{
    match command {
        Command::Create {
            model,
            input,
            activate_at,
        } => write_create(out, model, input, activate_at),
        Command::Delegate { person } => write_name(out, person),
        Command::Forward { persons } => write_some_names(out, persons),
        Command::Nominate { persons } => write_some_names(out, persons),
        Command::SetRole { role, persons } => {
            write_role(out, *role)?;
            write_names(out, persons)?;
            Ok(())
        }
        Command::SetPriority { priority } => write_priority(out, *priority),
        Command::SuspendUntil { end } => write_end(out, *end),
        Command::SetOutput { output } => write_some_parts(out, output),
        Command::Complete { output } => write_parts(out, output),
        Command::Fail { fault } => write_option_name(out, fault),
        Command::AddComment { text } => write_some_text(out, text),
        Command::InstantiateSubTask { sub } => write_name(out, sub),
        Command::Claim | Command::Start | Command::Stop | Command::Release => Ok(()),
        Command::Activate | Command::Suspend | Command::Resume => Ok(()),
        Command::Skip | Command::Exit | Command::Error => Ok(()),
    }
}
