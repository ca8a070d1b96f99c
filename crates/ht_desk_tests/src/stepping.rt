ghost use Rattle.std.specs.Prelude.{◌≤◌, IfOk};
ghost use Rattle.ht_base.specs.Events.{IsValid};
ghost use Rattle.ht_base.specs.Moment.{last_moment};

use crate::offices::{OPEN, SAMPLES, disk, file_of, open};
use ht_base::{Answer, Command, Event, Moment, Name, Query, Refusal, Reply, Retry, TaskId};
use ht_desk::{Desk, LEAST_LIMIT};
use ht_outside::MemoryDisk;
use std::alloc::Global;
use std::test::Fail;

// Which calls of the disk fail, the first four being those of the opening. Then what three events are
// answered: a claim with a number, a look at its task, and the same claim again; and how many commands
// were accepted.
const FAILURES: &str = "\
0 => Reserved Reserved Reserved 1
5 => store Ready Reserved 1
6 => store Ready Reserved 1
7 => store Ready Reserved 1
8 => store Reserved Reserved 1
7 9 => store store Reserved 1
8 9 => store store Reserved 1
8 10 => store store Reserved 1";

// An event at whose nth call of the disk everything stops, and the last moments to which the offices
// open that a crash leaves then.
const STOPS: &str = "\
claim 5 => 5000
claim 6 => 5000
claim 7 => 5000 6000
claim 8 => 5000 6000
claim 9 => 6000
numbered 5 => 5000
numbered 6 => 5000
numbered 7 => 5000 6000
numbered 8 => 5000 6000
numbered 9 => 6000
refused 5 => 1000
refused 6 => 1000
refused 7 => 1000 12000
refused 8 => 1000 12000
refused 9 => 12000
settled 9 => 5000 6000
settled 10 => 6000
settled 11 => 6000";

fn claim(name: &str, at: u64, is_numbered: bool, task: u32) -> Result<Event, Fail>
    requires { (at ≤ last_moment) × (1 ≤ task) }
    ensures { IfOk result (λ event. IsValid event) }
{
    let retry = if is_numbered {
        Some(Retry {
            device: 1,
            number: 5,
        })
    } else {
        None
    };
    Ok(Event::Ask {
        at: Moment(at),
        caller: Name::of(name.as_bytes()).ok_or("a name")?,
        retry,
        task: TaskId(task),
        command: Command::Claim,
    })
}

fn look() -> Result<Event, Fail>
    ensures { IfOk result (λ event. IsValid event) }
{
    Ok(Event::Read {
        caller: Name::of(b"p0").ok_or("a name")?,
        query: Query::Sheet(TaskId(1)),
    })
}

// The state that a reply shows, or that the disk failed.
fn shown(reply: &Reply) -> &'static str {
    match &reply.answer {
        Answer::Done { state, .. } => state.name(),
        Answer::Sheet(sheet) => sheet.as_sheet().state.name(),
        Answer::Refused(Refusal::Store) => "store",
        _ => "otherwise",
    }
}

// What is shown where these calls fail.
fn shown_where(alloc: Global, calls: &str) -> Result<String, Fail> {
    let mut failing = Vec::new(alloc);
    for call in calls.split(" ") {
        failing.push(call.parse::<u32>()?)?;
    }
    let mut first = disk(alloc, &file_of(alloc, "opening create")?, &failing)?;
    let mut second = disk(alloc, b"", &[])?;
    let models = OPEN.models.as_bytes();
    let people = OPEN.people.as_bytes();
    if models.len() > 262_144 || people.len() > 262_144 {
        return Err(Fail::from("too long a text"));
    }
    let mut desk = Desk::open(alloc, models, people, &mut first, &mut second, LEAST_LIMIT)?;
    let claim = claim("p0", 6000, true, 1)?;
    let claimed = desk.step(&claim);
    let looked = desk.step(&look()?);
    let again = desk.step(&claim);
    let accepted = desk.counts().accepted;
    let _ = desk.close();
    Ok(format!(in alloc;
        "{} {} {} {}",
        shown(&claimed),
        shown(&looked),
        shown(&again),
        accepted
    )?)
}

#[test]
fn a_command_is_in_doubt_until_it_is_looked_for(rt: HostRuntime) -> Result<(), Fail> {
    let alloc = rt.alloc();
    for line in FAILURES.lines() {
        let (calls, words) = line.split_once(" => ").ok_or("calls and what is shown")?;
        assert_eq!(rt; shown_where(alloc, calls)?.as_str(), words);
    }
    Ok(())
}

// The disk after everything stopped at a call of it.
fn stopped(alloc: Global, event: &str, call: u32) -> Result<MemoryDisk, Fail> {
    let is_refused = event == "refused";
    let (texts, names) = if is_refused {
        (SAMPLES, "samples timed")
    } else {
        (OPEN, "opening create")
    };
    let failing = if event == "settled" { 8 } else { 0 };
    let mut first = disk(alloc, &file_of(alloc, names)?, &[failing])?;
    first.stop(call);
    let mut second = disk(alloc, b"", &[])?;
    let models = texts.models.as_bytes();
    let people = texts.people.as_bytes();
    if models.len() > 262_144 || people.len() > 262_144 {
        return Err(Fail::from("too long a text"));
    }
    let mut desk = Desk::open(alloc, models, people, &mut first, &mut second, LEAST_LIMIT)?;
    let command = if is_refused {
        claim("dan", 12000, false, 2)?
    } else {
        claim("p0", 6000, event == "numbered", 1)?
    };
    let _ = desk.step(&command);
    if event == "settled" {
        let _ = desk.step(&look()?);
    }
    let _ = desk.close();
    Ok(first)
}

#[test]
fn a_stop_leaves_the_records_before_or_one_more(rt: HostRuntime) -> Result<(), Fail> {
    let alloc = rt.alloc();
    for line in STOPS.lines() {
        let (stop, moments) = line.split_once(" => ").ok_or("a stop and moments")?;
        let (event, call) = stop.split_once(" ").ok_or("an event and a call")?;
        let texts = if event == "refused" { SAMPLES } else { OPEN };
        let first = stopped(alloc, event, call.parse::<u32>()?)?;
        for pick in 0..3 {
            let mut left = first.crash(pick)?;
            let found = open(alloc, texts, &mut left)??;
            let mut is_allowed = false;
            for moment in moments.split(" ") {
                is_allowed |= found.last.0 == moment.parse::<u64>()?;
            }
            assert!(rt; is_allowed && found.tasks == 1);
        }
    }
    Ok(())
}
