//! A turn lock round one task, and doors with links.
ghost use Rattle.std.specs.Prelude.{◌≡◌, IfOk};
ghost use Rattle.ht_base.specs.Events.{IsValid};
ghost use Rattle.ht_shared.specs.Passes.{first_of};

use ht_base::{Answer, Bytes, Command, Event, Memory, Moment, Reply, State, Stepper, TaskId};
use ht_doors::MemoryDoor;
use ht_outside::StepClock;
use ht_serve::TakesEvents;
use ht_shared::{Pass, Shared};
use std::alloc::Global;
use std::sync::Wait;
use std::test::Fail;

// One task, which is Ready until it is claimed. Each answer tells its state. Turns are counted, and so are
// all other events.
#[derive(Drop)]
pub(crate) struct OneTask {
    state: State,
    pub(crate) turns: u64,
    pub(crate) asked: u64,
}

impl Stepper for OneTask {
    type Event = Event;

    type Reply = Reply;

    ghost takes = { λ event. IsValid event };

    ghost stands = { λ task. Unit {0} };

    ghost relates = { λ old event reply new. Unit {0} };

    fn step(&mut self, _seat: u32, event: &Event) -> Reply {
        match event {
            Event::Turn { .. } => {
                self.turns = self.turns.saturating_add(1);
            }
            Event::Ask {
                command: Command::Claim,
                ..
            } => {
                self.state = State::Reserved;
                self.asked = self.asked.saturating_add(1);
            }
            _ => {
                self.asked = self.asked.saturating_add(1);
            }
        }
        let answer = Answer::Done {
            task: TaskId(1),
            state: self.state,
            owner: None,
        };
        Reply { taken: 0, answer }
    }
}

impl TakesEvents for OneTask {
    ghost takes_valid = { λ event valid. valid };
}

pub(crate) fn lock(alloc: Global) -> Result<(Shared<OneTask>, Pass<OneTask>), Fail>
    ensures { IfOk result (λ lock. lock.1 ≡ first_of lock.0) }
{
    let task = OneTask {
        state: State::Ready,
        turns: 0,
        asked: 0,
    };
    match Shared::make(alloc, task) {
        Ok(lock) => Ok(lock),
        Err(_) => Err(Fail::new("no memory")),
    }
}

// A door with links that have these bytes to read.
pub(crate) fn door<'a, R: Wait>(
    rt: &'a R,
    alloc: Global,
    links: &[&[u8]],
) -> Result<MemoryDoor<'a, R>, Memory> {
    let mut bytes = Vec::new(alloc);
    for link in links {
        bytes.push(Bytes::of(alloc, link)?)?;
    }
    MemoryDoor::make(rt, alloc, bytes, Vec::new(alloc))
}

pub(crate) fn clock() -> StepClock {
    StepClock {
        next: Moment(5),
        step: 10,
    }
}

pub(crate) const CLAIM: &[u8] = b"POST /tasks/1/claim HTTP/1.1\r\nx-person: anna\r\n\r\n";

pub(crate) const READ: &[u8] = b"GET /tasks/1 HTTP/1.1\r\nx-person: anna\r\n\r\n";

// anna claims the task, and then reads it.
pub(crate) const CLAIM_AND_READ: &[u8] = b"POST /tasks/1/claim HTTP/1.1\r\nx-person: anna\r\n\r\n\
    GET /tasks/1 HTTP/1.1\r\nx-person: anna\r\n\r\n";

// No request at all.
pub(crate) const NONSENSE: &[u8] = b"nonsense\r\n\r\n";

pub(crate) const READY: &str = "HTTP/1.1 200 OK\r\ncontent-type: application/json\r\n\
    content-length: 39\r\n\r\n{\"owner\":null,\"state\":\"Ready\",\"task\":1}";

pub(crate) const RESERVED: &str = "HTTP/1.1 200 OK\r\ncontent-type: application/json\r\n\
    content-length: 42\r\n\r\n{\"owner\":null,\"state\":\"Reserved\",\"task\":1}";
