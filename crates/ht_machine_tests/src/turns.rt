ghost use Rattle.std.specs.Prelude.{◌≤◌, IfOk, IfSome};
ghost use Rattle.ht_base.specs.Events.{IsValid};
ghost use Rattle.ht_base.specs.Moment.{last_moment};
ghost use Rattle.ht_machine.specs.History.{event_of};

use ht_base::{
    Answer, Command, End, Event, LAST, Moment, Name, Parts, Person, Query, Record, Refusal, State,
    TaskId,
};
use ht_machine::{Decision, apply, decide, last_behind, read, turn};
use ht_models::Models;
use ht_people::Directory;
use ht_samples::{MODELS, PEOPLE};
use ht_tree::{Plan, Tables};
use std::alloc::Global;
use std::process::Abort;
use std::test::Fail;

// Offices, each behind an empty line: a moment, and `turn` or a person, an operation on task 1 and what
// is given to it, before how many actions are taken, the record that is left and what is answered. Or
// `row`, before the state of task 1 and its potential owners.
const SCRIPT: &str = "\
1000 dan create solo => 0 asked 1000 Reserved anna
2000 anna suspendUntil 2000 => 0 none UntilPast
2000 anna suspendUntil 5000 => 0 asked 2000 SuspendedReserved anna
4999 turn => 0 none Turned
5000 turn => 1 turn 5000 Turned
row => Reserved [Person(0)]

1000 dan create timed => 0 asked 1000 Reserved anna
10999 turn => 0 none Turned
11000 turn => 2 turn 11000 Turned
row => Ready [Person(1)]
253402300799999 turn => 0 none Turned

1000 dan create late => 0 asked 1000 Ready
7000 anna start => 1 turn 7000 Role
row => Ready [Person(1)]

1000 dan createAt unit 5000 => 0 asked 1000 Created
4999 turn => 0 none Turned
5000 turn => 1 turn 5000 Turned
row => Ready [Person(0), Person(1)]";

fn tables_of(alloc: Global) -> Result<Tables, Fail> {
    let models = Models::read(alloc, MODELS.as_bytes())?;
    let people = Directory::read(alloc, PEOPLE.as_bytes())?;
    Ok(Tables::new(alloc, models, people)?)
}

fn moment_of(text: &str) -> Result<Moment, Fail>
    ensures { IfOk result (λ m. m.0 ≤ last_moment) }
{
    let moment = text.parse::<u64>()?;
    if moment > LAST {
        return Err(Fail::from("too late a moment"));
    }
    Ok(Moment(moment))
}

fn created(
    alloc: Global,
    at: Moment,
    caller: Name,
    model: &str,
    activate_at: Option<Moment>,
) -> Event
    requires now { at.0 ≤ last_moment }
    requires later { IfSome activate_at (λ m. m.0 ≤ last_moment) }
    ensures { IsValid result }
{
    Event::Ask {
        at,
        caller,
        retry: None,
        task: TaskId(0),
        command: Command::Create {
            model: Name::of(model.as_bytes()),
            input: Parts::new(alloc),
            activate_at,
        },
    }
}

fn started(at: Moment, caller: Name) -> Event
    requires { at.0 ≤ last_moment }
    ensures { IsValid result }
{
    Event::Ask {
        at,
        caller,
        retry: None,
        task: TaskId(1),
        command: Command::Start,
    }
}

fn suspended(at: Moment, caller: Name, until: Moment) -> Event
    requires now { at.0 ≤ last_moment }
    requires later { until.0 ≤ last_moment }
    ensures { IsValid result }
{
    let end = End::At(until);
    Event::Ask {
        at,
        caller,
        retry: None,
        task: TaskId(1),
        command: Command::SuspendUntil { end },
    }
}

fn asked(alloc: Global, at: Moment, caller: Name, op: &str, given: &str) -> Result<Event, Fail>
    requires { at.0 ≤ last_moment }
    ensures { IfOk result IsValid }
{
    match op {
        "create" => Ok(created(alloc, at, caller, given, None)),
        "createAt" => {
            let (model, later) = given.split_once(" ").ok_or("a model and a moment")?;
            let later = moment_of(later)?;
            Ok(created(alloc, at, caller, model, Some(later)))
        }
        "suspendUntil" => Ok(suspended(at, caller, moment_of(given)?)),
        _ => Ok(started(at, caller)),
    }
}

fn event_of(alloc: Global, line: &str) -> Result<Event, Fail>
    ensures { IfOk result IsValid }
{
    let (at, rest) = line.split_once(" ").ok_or("a moment")?;
    let at = moment_of(at)?;
    if rest == "turn" {
        return Ok(Event::Turn { at });
    }
    let (who, rest) = rest.split_once(" ").ok_or("a person")?;
    let (op, given) = rest.split_once(" ").unwrap_or((rest, ""));
    let caller = Name::of(who.as_bytes()).ok_or("a name")?;
    asked(alloc, at, caller, op, given)
}

fn left_told(alloc: Global, left: &Option<Record>) -> Result<String, Fail> {
    match left {
        Some(Record::Turn { at }) => Ok(format!(in alloc; "turn {}", at.0)?),
        Some(Record::Asked { at, .. }) => Ok(format!(in alloc; "asked {}", at.0)?),
        Some(Record::Opening { .. }) => Ok(String::from_str(alloc, "opening")?),
        None => Ok(String::from_str(alloc, "none")?),
    }
}

fn told(alloc: Global, answer: &Answer) -> Result<String, Fail> {
    match answer {
        Answer::Done {
            state,
            owner: Some(owner),
            ..
        } => Ok(format!(in alloc; "{} {}", state.name(), owner.as_str())?),
        Answer::Done { state, .. } => Ok(String::from_str(alloc, state.name())?),
        Answer::Turned => Ok(String::from_str(alloc, "Turned")?),
        Answer::Refused(Refusal::UntilPast) => Ok(String::from_str(alloc, "UntilPast")?),
        Answer::Refused(Refusal::Role { .. }) => Ok(String::from_str(alloc, "Role")?),
        _ => Err(Fail::from("another answer")),
    }
}

fn decision_told(alloc: Global, decision: &Decision) -> Result<String, Fail> {
    let left = left_told(alloc, &decision.left)?;
    let answer = told(alloc, &decision.reply.answer)?;
    Ok(format!(in alloc; "{} {left} {answer}", decision.reply.taken)?)
}

// What an event takes, leaves and is answered. It is committed.
fn outcome_of(alloc: Global, tables: &mut Tables, line: &str) -> Result<String, Fail> {
    let event = event_of(alloc, line)?;
    let decision = decide(alloc, tables, &event)?;
    let outcome = decision_told(alloc, &decision)?;
    let last = last_behind(&decision.left, tables);
    tables.commit(decision.plan, last);
    Ok(outcome)
}

fn row_told(alloc: Global, tables: &Tables) -> Result<String, Fail> {
    let row = tables.row(TaskId(1)).ok_or("a row")?;
    let owners = row.potential_owners.as_slice();
    Ok(format!(in alloc; "{} {owners:?}", row.state.name())?)
}

fn is_found(alloc: Global, tables: &mut Tables, line: &str) -> Result<bool, Fail> {
    let (asked, want) = line
        .split_once(" => ")
        .ok_or("a line and what comes of it")?;
    let found = match asked {
        "row" => row_told(alloc, tables)?,
        _ => outcome_of(alloc, tables, asked)?,
    };
    Ok(found.as_str() == want)
}

fn is_office_so(rt: &impl Abort, alloc: Global, lines: &str) -> Result<(), Fail> {
    let mut tables = tables_of(alloc)?;
    for line in lines.lines() {
        assert!(rt; is_found(alloc, &mut tables, line)?, "{line}");
    }
    Ok(())
}

#[test]
fn what_is_due_comes_first(rt: HostRuntime) -> Result<(), Fail> {
    for lines in SCRIPT.split("\n\n") {
        is_office_so(&rt, rt.alloc(), lines)?;
    }
    Ok(())
}

// A notification of the first task: its escalation's deadline, its moment and the one who is told.
fn is_told(tables: &Tables, number: u32, deadline: &str, person: u32) -> bool {
    let Some(notice) = tables.notice(number) else {
        return false;
    };
    let is_named = notice.deadline.as_bytes() == deadline.as_bytes();
    let is_alone = notice.recipients.as_slice() == [Person(person)].as_slice();
    is_named && is_alone && notice.task == TaskId(1) && notice.moment == Moment(11_000)
}

#[test]
fn a_missed_deadline_is_told(rt: HostRuntime) -> Result<(), Fail> {
    let mut tables = tables_of(rt.alloc())?;
    for line in ["1000 dan create timed", "20000 turn"] {
        outcome_of(rt.alloc(), &mut tables, line)?;
    }
    assert_eq!(rt; tables.notices(), 2);
    assert!(rt; is_told(&tables, 1, "one", 2) && is_told(&tables, 2, "two", 3));
    Ok(())
}

#[test]
fn a_turn_is_planned(rt: HostRuntime) -> Result<(), Fail> {
    let mut tables = tables_of(rt.alloc())?;
    outcome_of(rt.alloc(), &mut tables, "1000 dan create timed")?;
    let mut plan = Plan::begin(rt.alloc())?;
    assert_eq!(rt; turn(rt.alloc(), &tables, &mut plan, Moment(11_000))?, 2);
    Ok(())
}

#[test]
fn a_sheet_is_read(rt: HostRuntime) -> Result<(), Fail> {
    let mut tables = tables_of(rt.alloc())?;
    outcome_of(rt.alloc(), &mut tables, "1000 dan create solo")?;
    let dan = Name::of(b"dan").ok_or("a name")?;
    let reply = read(rt.alloc(), &tables, dan, &Query::Sheet(TaskId(1)))?;
    let Answer::Sheet(sheet) = &reply.answer else {
        return Err(Fail::from("another answer"));
    };
    let sheet = sheet.as_sheet();
    assert!(rt; reply.taken == 0 && sheet.task == TaskId(1) && sheet.state == State::Reserved);
    Ok(())
}

// A create by dan, as it is kept.
fn created_at(alloc: Global, at: Moment) -> Result<Record, Fail>
    requires { at.0 ≤ last_moment }
    ensures { IfOk result (λ kept. IfSome (event_of kept) IsValid) }
{
    let caller = Name::of(b"dan").ok_or("a name")?;
    let command = Command::Create {
        model: Name::of(b"solo"),
        input: Parts::new(alloc),
        activate_at: None,
    };
    Ok(Record::Asked {
        at,
        caller,
        retry: None,
        task: TaskId(0),
        command,
    })
}

#[test]
fn a_record_is_applied_where_its_event_leaves_it(rt: HostRuntime) -> Result<(), Fail> {
    let alloc = rt.alloc();
    let mut tables = tables_of(alloc)?;
    let at = Moment(1000);
    assert!(rt;
        !apply(alloc, &mut tables, &Record::Turn { at })?,
        "nothing was due"
    );
    assert!(rt;
        apply(alloc, &mut tables, &created_at(alloc, at)?)?,
        "a create"
    );
    let earlier = created_at(alloc, Moment(999))?;
    assert!(rt;
        !apply(alloc, &mut tables, &earlier)?,
        "the event acts at 1000"
    );
    assert!(rt; tables.rows() == 1, "one task");
    Ok(())
}
