ghost use Rattle.std.specs.Prelude.{◌≤◌, IfOk};
ghost use Rattle.ht_base.specs.Events.{IsCommand, IsTaskOf, IsValid};
ghost use Rattle.ht_base.specs.Moment.{last_moment};
ghost use Rattle.ht_base.specs.declared.task_id.TaskId.{TaskId as TaskIdOf};

use ht_base::{Answer, Command, Event, LAST, Moment, Name, Parts, TaskId};
use ht_machine::{decide, last_behind};
use ht_models::Models;
use ht_people::Directory;
use ht_samples::{MODELS, PEOPLE};
use ht_tree::Tables;
use std::alloc::Global;
use std::test::Fail;

// An office without tasks.
pub(crate) fn empty_office(alloc: Global) -> Result<Tables, Fail> {
    let models = Models::read(alloc, MODELS.as_bytes())?;
    let people = Directory::read(alloc, PEOPLE.as_bytes())?;
    Ok(Tables::new(alloc, models, people)?)
}

// Does what the line says: a moment, a person, an operation, and the name of a model or the number of
// a task.
pub(crate) fn happens(alloc: Global, tables: &mut Tables, line: &str) -> Result<(), Fail> {
    let event = event_of(alloc, line)?;
    let decision = decide(alloc, tables, &event)?;
    if let Answer::Refused(_) = decision.reply.answer {
        return Err(Fail::from("a refusal"));
    }
    let last = last_behind(&decision.left, tables);
    tables.commit(decision.plan, last);
    Ok(())
}

fn event_of(alloc: Global, line: &str) -> Result<Event, Fail>
    ensures { IfOk result IsValid }
{
    let (at, rest) = line.split_once(" ").ok_or("a moment")?;
    let (who, rest) = rest.split_once(" ").ok_or("a person")?;
    let (op, given) = rest.split_once(" ").ok_or("an operation")?;
    let at = at.parse::<u64>()?;
    if at > LAST {
        return Err(Fail::from("too late a moment"));
    }
    let caller = Name::of(who.as_bytes()).ok_or("a name")?;
    if op == "create" {
        return Ok(asked(Moment(at), caller, TaskId(0), create(alloc, given)));
    }
    let task = given.parse::<u32>()?;
    if task == 0 {
        return Err(Fail::from("no task"));
    }
    match op {
        "claim" => Ok(asked(Moment(at), caller, TaskId(task), Command::Claim)),
        "start" => Ok(asked(Moment(at), caller, TaskId(task), Command::Start)),
        "complete" => Ok(asked(Moment(at), caller, TaskId(task), complete(alloc))),
        _ => Err(Fail::from("another operation")),
    }
}

fn create(alloc: Global, model: &str) -> Command
    ensures task { IsTaskOf result (record { 0 = 0 }) }
    ensures given { IsCommand result }
{
    Command::Create {
        model: Name::of(model.as_bytes()),
        input: Parts::new(alloc),
        activate_at: None,
    }
}

fn complete(alloc: Global) -> Command
    ensures task { (id : TaskIdOf) → 1 ≤ id.0 → IsTaskOf result id }
    ensures given { IsCommand result }
{
    Command::Complete {
        output: Parts::new(alloc),
    }
}

fn asked(at: Moment, caller: Name, task: TaskId, command: Command) -> Event
    requires at { at.0 ≤ last_moment }
    requires task { IsTaskOf command task }
    requires given { IsCommand command }
    ensures { IsValid result }
{
    Event::Ask {
        at,
        caller,
        retry: None,
        task,
        command,
    }
}
