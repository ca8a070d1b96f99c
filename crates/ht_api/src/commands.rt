ghost use Rattle.std.specs.Prelude.{◌≡◌, ◌==◌, [], Ok, false, length, unwrap_or};
ghost use Rattle.serde_json.specs.Data.{object, no_members};
ghost use Rattle.ht_api.specs.Commands as spec;
ghost use Rattle.ht_api.specs.Commands.{HasAll, command_from};
ghost use Rattle.ht_api.specs.Fields.{fields_in};
ghost use Rattle.ht_api.specs.Keys.{keys_of};
ghost use Rattle.ht_api.specs.Refusals.{Gives};

use crate::asked::Asked;
use crate::fields::{Fields, fill, is_bare, take_none};
use crate::keys::Key;
use crate::refusal::ApiRefusal;
use ht_base::{Command, End, Moment, Parts, Retry};
use std::alloc::Global;

/// The command that a body gives to what is asked, and its number, if it has one.
pub(crate) fn command_in(
    alloc: Global,
    asked: Asked,
    body: &[u8],
) -> Result<(Option<Retry>, Command), ApiRefusal>
    ensures { Gives (spec.command_in asked body.now) result }
{
    if is_bare(body) {
        return bare_command(alloc, asked);
    }
    full_command(alloc, asked, body)
}

// The command of a body without keys, as most bodies are. No field is filled for it.
fn bare_command(alloc: Global, asked: Asked) -> Result<(Option<Retry>, Command), ApiRefusal>
    ensures { Gives (command_from asked (fields_in asked (object no_members))) result }
{
    take_none(asked)?;
    let command = command_of(alloc, asked, Fields::new())?;
    Ok((None, command))
}

// The same of any other body.
// Apart, since its fields would be cleared also for a body without keys.
#[inline(never)]
fn full_command(
    alloc: Global,
    asked: Asked,
    body: &[u8],
) -> Result<(Option<Retry>, Command), ApiRefusal>
    requires { (length body.now == 0) ≡ false }
    ensures { Gives (spec.command_in asked body.now) result }
{
    let mut fields = Fields::new();
    fill(alloc, asked, body, &mut fields)?;
    let retry = retry_of(fields.device, fields.number);
    let command = command_of(alloc, asked, fields)?;
    Ok((retry, command))
}

fn retry_of(device: Option<u8>, number: Option<u32>) -> Option<Retry>
    ensures { result ≡ spec.retry_from device number }
{
    Some(Retry {
        device: device?,
        number: number?,
    })
}

// Where the fields are known to have no values, nothing is moved.
#[inline(always)]
fn command_of(alloc: Global, asked: Asked, fields: Fields) -> Result<Command, ApiRefusal>
    requires { HasAll (keys_of asked) fields }
    ensures { result ≡ spec.command_of asked fields }
{
    Ok(match asked {
        Asked::Create => Command::Create {
            model: fields.model,
            input: parts_or_none(alloc, fields.input),
            activate_at: fields.activate_at,
        },
        Asked::Claim => Command::Claim,
        Asked::Start => Command::Start,
        Asked::Stop => Command::Stop,
        Asked::Release => Command::Release,
        Asked::Delegate => Command::Delegate {
            person: fields.person.unwrap(),
        },
        Asked::Forward => Command::Forward {
            persons: fields.owners.unwrap(),
        },
        Asked::Nominate => Command::Nominate {
            persons: fields.owners.unwrap(),
        },
        Asked::Activate => Command::Activate,
        Asked::SetRole => Command::SetRole {
            role: fields.role.unwrap(),
            persons: fields.persons.unwrap(),
        },
        Asked::SetPriority => Command::SetPriority {
            priority: fields.priority.unwrap(),
        },
        Asked::Suspend => Command::Suspend,
        Asked::SuspendUntil => Command::SuspendUntil {
            end: end_of(fields.until, fields.period)?,
        },
        Asked::Resume => Command::Resume,
        Asked::SetOutput => Command::SetOutput {
            output: fields.some_output.unwrap(),
        },
        Asked::Complete => Command::Complete {
            output: parts_or_none(alloc, fields.output),
        },
        Asked::Fail => Command::Fail {
            fault: fields.fault,
        },
        Asked::Skip => Command::Skip,
        Asked::Exit => Command::Exit,
        Asked::Error => Command::Error,
        Asked::AddComment => Command::AddComment {
            text: fields.text.unwrap(),
        },
        Asked::InstantiateSubTask => Command::InstantiateSubTask {
            sub: fields.sub.unwrap(),
        },
    })
}

// When a suspension ends: at a moment, or behind a period.
fn end_of(until: Option<Moment>, period: Option<u64>) -> Result<End, ApiRefusal>
    ensures { result ≡ spec.end_of until period }
{
    match (until, period) {
        (Some(moment), _) => Ok(End::At(moment)),
        (None, Some(period)) => Ok(End::After(period)),
        (None, None) => Err(ApiRefusal::of_key(Key::OneEnd.name())),
    }
}

fn parts_or_none(alloc: Global, parts: Option<Parts>) -> Parts
    ensures { result ≡ unwrap_or parts [] }
{
    match parts {
        Some(parts) => parts,
        None => Parts::new(alloc),
    }
}
