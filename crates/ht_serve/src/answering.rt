ghost use Rattle.std.specs.Prelude.{◌≡◌, ◌+◌, ◌≤◌, [], length, Ok, IfOk};
ghost use Rattle.ht_base.specs.Events.{IsValid};
ghost use Rattle.ht_base.specs.Moment.{last_moment};
ghost use Rattle.ht_base.specs.declared.reply.Answer.TheVariants.{Refused};
ghost use Rattle.ht_outside.specs.Causes.{HasCause};
ghost use Rattle.ht_wire.specs.Replies.{IsReplyStatus};
ghost use Rattle.ht_api.specs.Events.{event_due};
ghost use Rattle.ht_api.specs.Replies.{answer_text};
ghost use Rattle.ht_api.specs.Statuses.{answer_status, refusal_status};
ghost use Rattle.ht_serve.specs.Answering.{Answers, Replies};
ghost use Rattle.ht_serve.specs.Texts.{reply_status, status_or, text_or};

use crate::Caller;
use crate::texts::{TEXT_ROOM, memory_text};
use ht_api::{Routes, event_of, text_of};
use ht_base::{Answer, Bytes, Command, Event, Memory, Moment, Refusal, Reply, Spent};
use ht_outside::{Failed, Link};
use ht_wire::{Buffer, Request, write_reply};
use std::alloc::Global;

/// What was read and not answered yet, the text of the last reply, and the paths of the interface.
#[derive(Drop)]
pub(crate) struct Buffers {
    pub input: Buffer,
    text: Bytes,
    routes: Routes,
}

impl Buffers {
    pub(crate) fn new(alloc: Global) -> Result<Buffers, Memory>
        ensures { IfOk result (λ b. b.input ≡ []) }
    {
        Ok(Buffers {
            input: Buffer::new(alloc)?,
            text: Bytes::new(alloc),
            routes: Routes::new(alloc)?,
        })
    }
}

/// Answers a request, and writes the reply.
pub(crate) fn reply_to<Q: Caller, L: Link>(
    alloc: Global,
    caller: &mut Q,
    request: &Request,
    at: Moment,
    closes: bool,
    link: &mut L,
    buffers: &mut Buffers,
) -> Result<(), Failed>
    requires at { at.0 ≤ last_moment }
    requires stands { Q.stands caller.old }
    ensures replied { Replies (Q.made caller.old caller.new) (Q.spent caller.new)
        (event_due request.now at.0) closes (L.Sink.sink_state link.old).written
        (L.Sink.sink_state link.new).written result }
    ensures kept { Q.spent caller.old → Q.spent caller.new }
    ensures stands { Q.stands caller.new }
    ensures same_caller { Q.same caller.old caller.new }
    ensures cause { HasCause (L.Sink.sink_state link.old).faults (L.Sink.sink_state link.new).faults
        result }
    ensures beside { L.Source.source_state link.new ≡ L.Source.source_state link.old }
    ensures same { L.same link.old link.new }
    ensures input { buffers.new.input ≡ buffers.old.input }
{
    let answered = answer(
        alloc,
        &buffers.routes,
        caller,
        request,
        at,
        &mut buffers.text,
    );
    let (status, text) = match answered {
        Ok(status) => (status, buffers.text.as_slice()),
        Err(Memory) => (500, memory_text()),
    };
    write_reply(link, status, text, closes)
}

// The status of the reply to a request, whose text is put in place of the last one.
fn answer<Q: Caller>(
    alloc: Global,
    routes: &Routes,
    caller: &mut Q,
    request: &Request,
    at: Moment,
    text: &mut Bytes,
) -> Result<u16, Memory>
    requires at { at.0 ≤ last_moment }
    requires stands { Q.stands caller.old }
    ensures answers { Answers (Q.made caller.old caller.new) (Q.spent caller.new)
        (event_due request.now at.0) (status_or result) (text_or result text.new.items) }
    ensures known { IfOk result IsReplyStatus }
    ensures kept { Q.spent caller.old → Q.spent caller.new }
    ensures stands { Q.stands caller.new }
    ensures same_caller { Q.same caller.old caller.new }
{
    text.clear();
    text.reserve(TEXT_ROOM)?;
    match event_of(alloc, routes, request, at) {
        Ok(event) => call_into(alloc, caller, &event, text),
        Err(why) => refuse_into(alloc, why.into(), text),
    }
}

// The status of the reply to an event, whose text is put into the buffer.
fn call_into<Q: Caller>(
    alloc: Global,
    caller: &mut Q,
    event: &Event,
    text: &mut Bytes,
) -> Result<u16, Memory>
    requires valid { IsValid event.now }
    requires room { 1024 ≤ text.old.spare + length text.old.items }
    requires stands { Q.stands caller.old }
    ensures answers { Answers (Q.made caller.old caller.new) (Q.spent caller.new) (Ok event.now)
        (status_or result) (text_or result text.new.items) }
    ensures known { IfOk result IsReplyStatus }
    ensures kept { Q.spent caller.old → Q.spent caller.new }
    ensures stands { Q.stands caller.new }
    ensures same_caller { Q.same caller.old caller.new }
{
    match caller.call(event) {
        Ok(reply) => {
            let status = text_of(alloc, &reply, text)?;
            Ok(status_for(event, &reply.answer, status))
        }
        Err(Spent) => refuse_into(alloc, Refusal::Spent, text),
    }
}

// The same of a request that makes no event, or for whose event no turn is left.
fn refuse_into(alloc: Global, refusal: Refusal, text: &mut Bytes) -> Result<u16, Memory>
    requires { 1024 ≤ text.old.spare + length text.old.items }
    ensures status { result ≡ Ok (refusal_status refusal) }
    ensures text { text.new.items ≡ answer_text (Refused refusal) }
    ensures known { IfOk result IsReplyStatus }
{
    let reply = Reply {
        taken: 0,
        answer: Answer::Refused(refusal),
    };
    text_of(alloc, &reply, text)
}

// 201 in place of 200 where a task was created, or a sub task made.
fn status_for(event: &Event, answer: &Answer, status: u16) -> u16
    requires status { status ≡ answer_status answer.now }
    requires known { IsReplyStatus status }
    ensures status { result ≡ reply_status event.now answer.now }
    ensures known { IsReplyStatus result }
{
    match (event, answer) {
        (
            Event::Ask {
                command: Command::Create { .. } | Command::InstantiateSubTask { .. },
                ..
            },
            Answer::Done { .. },
        ) => 201,
        _ => status,
    }
}
