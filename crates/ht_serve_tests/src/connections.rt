ghost use Rattle.std.specs.Prelude.{◌≡◌, [], ◌++◌, refl};
ghost use Rattle.ht_base.specs.Events.{IsValid};

use ht_base::{Answer, Bytes, Event, Moment, Reply, Spent, State, Stepper, TaskId};
use ht_outside::{MemorySink, MemorySource, Pair, StepClock};
use ht_serve::{Alone, Caller, Ending, Quiet, TakesEvents, serve_connection};
use std::alloc::Global;
use std::process::Abort;
use std::test::Fail;

// A machine that answers each event with the same task, and counts the events and the latest moment.
#[derive(Drop)]
struct Counter {
    asked: u32,
    latest: u64,
}

impl Stepper for Counter {
    type Event = Event;

    type Reply = Reply;

    ghost takes = { λ event. IsValid event };

    ghost stands = { λ counter. Unit {0} };

    ghost relates = { λ old event reply new. Unit {0} };

    fn step(&mut self, _seat: u32, event: &Event) -> Reply {
        self.asked = self.asked.saturating_add(1);
        if let Event::Ask { at, .. } = event {
            self.latest = at.0;
        }
        let answer = Answer::Done {
            task: TaskId(1),
            state: State::Ready,
            owner: None,
        };
        Reply { taken: 0, answer }
    }
}

impl TakesEvents for Counter {
    ghost takes_valid = { λ event valid. valid };
}

// A caller for whom no turn is left.
#[derive(Drop)]
struct Late;

impl Caller for Late {
    ghost made = { λ p q calls. calls ≡ [] };

    ghost spent = { λ late. Unit {0} };

    ghost stands = { λ late. Unit {0} };

    ghost made_none = { λ q. refl };

    ghost made_more = { λ p q r xs ys a b. (λ i. a i ++ b i) };

    ghost same_self = { λ q. tt };

    ghost same_on = { λ p q r first then_on. tt };

    fn call(&mut self, _event: &Event) -> Result<Reply, Spent> {
        Err(Spent)
    }
}

fn link(alloc: Global, bytes: &[u8]) -> Result<Pair<MemorySource, MemorySink>, Fail> {
    let input = MemorySource::make(alloc, Bytes::of(alloc, bytes)?, Vec::new(alloc))?;
    let output = MemorySink::make(alloc, Vec::new(alloc))?;
    Ok(Pair { input, output })
}

const TWO: &[u8] = b"POST /tasks HTTP/1.1\r\nx-person: dan\r\ncontent-length: 2\r\n\r\n{}\
    POST /tasks/1/claim HTTP/1.1\r\nx-person: anna\r\n\r\n";

const FIRST_REPLY: &str = "HTTP/1.1 201 Created\r\ncontent-type: application/json\r\n\
    content-length: 39\r\n\r\n{\"owner\":null,\"state\":\"Ready\",\"task\":1}";

const LAST_REPLY: &str = "HTTP/1.1 200 OK\r\ncontent-type: application/json\r\n\
    content-length: 39\r\nconnection: close\r\n\r\n{\"owner\":null,\"state\":\"Ready\",\"task\":1}";

fn is_done(ending: Ending) -> bool {
    match ending {
        Ending::Done => true,
        _ => false,
    }
}

#[test]
fn requests_are_called_in_order_and_the_last_reply_closes(rt: HostRuntime) -> Result<(), Fail> {
    let mut link = link(rt.alloc(), TWO)?;
    let mut clock = StepClock {
        next: Moment(5),
        step: 10,
    };
    let mut counter = Counter {
        asked: 0,
        latest: 0,
    };
    let mut caller = Alone {
        state: &mut counter,
    };
    let ending = serve_connection(
        rt.alloc(),
        &mut caller,
        &mut link,
        &mut clock,
        &Quiet,
        1,
        2,
        true,
    );
    let Alone { state: _ } = caller;
    assert!(rt; is_done(ending));
    assert_eq!(rt; counter.asked, 2);
    assert_eq!(rt; counter.latest, 15);
    let mut want = String::new(rt.alloc());
    want.push_str(FIRST_REPLY)?;
    want.push_str(LAST_REPLY)?;
    assert_eq!(rt; link.output.written(), want.as_bytes());
    Ok(())
}

const TURNED_AWAY: &str = "HTTP/1.1 503 Service Unavailable\r\ncontent-type: application/json\r\n\
    content-length: 17\r\n\r\n{\"fault\":\"Spent\"}";

#[test]
fn who_is_spent_is_turned_away(rt: HostRuntime) -> Result<(), Fail> {
    let mut link = link(rt.alloc(), TWO)?;
    let mut clock = StepClock {
        next: Moment(5),
        step: 10,
    };
    let ending = serve_connection(
        rt.alloc(),
        &mut Late,
        &mut link,
        &mut clock,
        &Quiet,
        1,
        2,
        false,
    );
    assert!(rt; is_done(ending));
    let mut want = String::new(rt.alloc());
    want.push_str(TURNED_AWAY)?;
    want.push_str(TURNED_AWAY)?;
    assert_eq!(rt; link.output.written(), want.as_bytes());
    Ok(())
}
