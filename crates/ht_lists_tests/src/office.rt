ghost use Rattle.std.specs.Prelude.{◌≤◌, IfOk};
ghost use Rattle.ht_base.specs.Events.{AreNames, IsValid};
ghost use Rattle.ht_base.specs.Moment.{last_moment};

use ht_base::{
    Answer, Command, Event, LAST, LOWEST_PRIORITY, Memory, Moment, Name, Names, Parts, RoleList,
    TaskId,
};
use ht_machine::{decide, last_behind};
use ht_models::Models;
use ht_people::Directory;
use ht_samples::{MODELS, PEOPLE};
use ht_tree::Tables;
use std::alloc::Global;
use std::test::Fail;

// An office in which what the lines say was done, one after another: a moment, and `turn`, or a
// person, an operation, the number of a task, and what is given.
pub(crate) fn office_of(alloc: Global, lines: &str) -> Result<Tables, Fail> {
    let models = Models::read(alloc, MODELS.as_bytes())?;
    let people = Directory::read(alloc, PEOPLE.as_bytes())?;
    let mut tables = Tables::new(alloc, models, people)?;
    for line in lines.lines() {
        happens(alloc, &mut tables, line)?;
    }
    Ok(tables)
}

fn happens(alloc: Global, tables: &mut Tables, line: &str) -> Result<(), Fail> {
    let event = event_of(alloc, line)?;
    let decision = decide(alloc, tables, &event)?;
    if let Answer::Refused(_) = decision.reply.answer {
        return Err(Fail::from("a refusal"));
    }
    let last = last_behind(&decision.left, tables);
    tables.commit(decision.plan, last);
    Ok(())
}

fn event_of(alloc: Global, line: &str) -> Result<Event, Fail>
    ensures { IfOk result IsValid }
{
    let (at, rest) = line.split_once(" ").ok_or("a moment")?;
    let at = moment_of(at)?;
    if rest == "turn" {
        return Ok(Event::Turn { at });
    }
    let (who, rest) = rest.split_once(" ").ok_or("a person")?;
    let (op, rest) = rest.split_once(" ").ok_or("an operation")?;
    let caller = Name::of(who.as_bytes()).ok_or("a name")?;
    if op == "create" {
        return Ok(created(alloc, at, caller, rest));
    }
    let (task, given) = rest.split_once(" ").unwrap_or((rest, ""));
    let task = task.parse::<u32>()?;
    if task == 0 {
        return Err(Fail::from("no task"));
    }
    asked(alloc, at, caller, TaskId(task), op, given)
}

fn moment_of(text: &str) -> Result<Moment, Fail>
    ensures { IfOk result (λ m. m.0 ≤ last_moment) }
{
    let moment = text.parse::<u64>()?;
    if moment > LAST {
        return Err(Fail::from("too late a moment"));
    }
    Ok(Moment(moment))
}

fn created(alloc: Global, at: Moment, caller: Name, model: &str) -> Event
    requires { at.0 ≤ last_moment }
    ensures { IsValid result }
{
    Event::Ask {
        at,
        caller,
        retry: None,
        task: TaskId(0),
        command: Command::Create {
            model: Name::of(model.as_bytes()),
            input: Parts::new(alloc),
            activate_at: None,
        },
    }
}

fn asked(
    alloc: Global,
    at: Moment,
    caller: Name,
    task: TaskId,
    op: &str,
    given: &str,
) -> Result<Event, Fail>
    requires at { at.0 ≤ last_moment }
    requires task { 1 ≤ task.0 }
    ensures { IfOk result IsValid }
{
    match op {
        "setRole" => {
            let (role, who) = given.split_once(" ").ok_or("a role and a person")?;
            let persons = one_name(alloc, Name::of(who.as_bytes()).ok_or("a name")?)?;
            Ok(role_set(at, caller, task, role_list(role)?, persons))
        }
        "setPriority" => priority_set(at, caller, task, given.parse::<u8>()?),
        "complete" => Ok(completed(alloc, at, caller, task)),
        "claim" => Ok(worked(at, caller, task, true)),
        "start" => Ok(worked(at, caller, task, false)),
        _ => Err(Fail::from("another operation")),
    }
}

fn role_list(text: &str) -> Result<RoleList, Fail> {
    match text {
        "potentialOwners" => Ok(RoleList::PotentialOwners),
        "stakeholders" => Ok(RoleList::Stakeholders),
        _ => Err(Fail::from("another role")),
    }
}

#[tactic(auto, using(crate::proofs::OneName::are_names))]
fn one_name(alloc: Global, name: Name) -> Result<Names, Memory>
    ensures { IfOk result AreNames }
{
    let mut names = Names::new(alloc);
    names.push(name)?;
    Ok(names)
}

fn role_set(at: Moment, caller: Name, task: TaskId, role: RoleList, persons: Names) -> Event
    requires at { at.0 ≤ last_moment }
    requires task { 1 ≤ task.0 }
    requires persons { AreNames persons }
    ensures { IsValid result }
{
    Event::Ask {
        at,
        caller,
        retry: None,
        task,
        command: Command::SetRole { role, persons },
    }
}

fn priority_set(at: Moment, caller: Name, task: TaskId, priority: u8) -> Result<Event, Fail>
    requires at { at.0 ≤ last_moment }
    requires task { 1 ≤ task.0 }
    ensures { IfOk result IsValid }
{
    if priority > LOWEST_PRIORITY {
        return Err(Fail::from("no priority"));
    }
    Ok(Event::Ask {
        at,
        caller,
        retry: None,
        task,
        command: Command::SetPriority { priority },
    })
}

fn completed(alloc: Global, at: Moment, caller: Name, task: TaskId) -> Event
    requires at { at.0 ≤ last_moment }
    requires task { 1 ≤ task.0 }
    ensures { IsValid result }
{
    Event::Ask {
        at,
        caller,
        retry: None,
        task,
        command: Command::Complete {
            output: Parts::new(alloc),
        },
    }
}

// A task is claimed, or else started.
fn worked(at: Moment, caller: Name, task: TaskId, is_claimed: bool) -> Event
    requires at { at.0 ≤ last_moment }
    requires task { 1 ≤ task.0 }
    ensures { IsValid result }
{
    let command = if is_claimed {
        Command::Claim
    } else {
        Command::Start
    };
    Event::Ask {
        at,
        caller,
        retry: None,
        task,
        command,
    }
}
