ghost use Rattle.std.specs.Prelude.{◌≡◌, ◌<◌, ◌++◌, codes, decimal};
ghost use Rattle.ht_base.specs.Events.{IsValid};
ghost use Rattle.ht_load.specs.Requests as spec;

use crate::Draws;
use crate::lines::{Line, put_number};
use ht_base::{Command, Event, Moment, Name, Parts, TaskId};
use std::alloc::Global;

/// Request number k, counted from 0, where there are so many tasks. It takes no memory.
pub(crate) fn next_request(alloc: Global, draws: &mut Draws, k: u32, tasks: u32) -> Event
    ensures value { result ≡ spec.request draws.old.x k tasks }
    ensures valid { IsValid result }
    ensures draws { draws.new.x ≡ spec.thrice draws.old.x }
{
    let a = draws.draw();
    let b = draws.draw();
    let c = draws.draw();
    event_of(alloc, k, tasks, a, b, c)
}

fn event_of(alloc: Global, k: u32, tasks: u32, a: u64, b: u64, c: u64) -> Event
    ensures value { result ≡ spec.event_of k tasks a b c }
    ensures valid { IsValid result }
{
    let at = Moment(u64::from(k));
    let caller = caller_of((b % 16) as u32);
    if tasks == 0 || a % 4 == 0 {
        return Event::Ask {
            at,
            caller,
            retry: None,
            task: TaskId(0),
            command: create_unit(alloc),
        };
    }
    Event::Ask {
        at,
        caller,
        retry: None,
        task: TaskId(1 + (c % u64::from(tasks)) as u32),
        command: command_of(alloc, a % 4),
    }
}

fn command_of(alloc: Global, kind: u64) -> Command
    ensures { result ≡ spec.command_of kind }
{
    if kind == 1 {
        Command::Claim
    } else if kind == 2 {
        Command::Start
    } else {
        Command::Complete {
            output: Parts::new(alloc),
        }
    }
}

fn create_unit(alloc: Global) -> Command
    ensures { result ≡ spec.create_unit }
{
    Command::Create {
        model: Name::of(b"unit"),
        input: Parts::new(alloc),
        activate_at: None,
    }
}

// The name of the person with this number.
fn caller_of(number: u32) -> Name
    requires { number < 16 }
    ensures { result ≡ codes "p" ++ decimal number }
{
    let mut name = Line::new();
    put_number(&mut name, b"p", number);
    match Name::of(&name) {
        Some(name) => name,
        None => unreachable!(),
    }
}
