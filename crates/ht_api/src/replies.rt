ghost use Rattle.std.specs.Prelude.{◌≡◌, ◌+◌, ◌≤◌, [], length, IsOk, IfOk, OnOk, OnErr};
ghost use Rattle.serde_json.specs.Written.{compact_text};
ghost use Rattle.ht_base.specs.declared.reply.Answer.TheVariants.{Done, Turned};
ghost use Rattle.ht_wire.specs.Replies.{IsReplyStatus};
ghost use Rattle.ht_api.specs.Replies.{IsShort, IsTold, answer_data, answer_text};
ghost use Rattle.ht_api.specs.Statuses.{answer_status};
ghost use Rattle.ht_api.specs.Writing.{Puts, tokens_of};

use crate::contents::{Content, put_short};
use crate::faults::put_refusal;
use crate::pages::{put_notices, put_page};
use crate::sheets::put_sheet;
use crate::statuses::status_of;
use ht_base::{Answer, Bytes, Memory, Name, Reply, State, TaskId};
use json::Writer;
use std::alloc::Global;

/// The status of a reply, 200 where a command was done. Its text is put in place of what `into` holds;
/// after Memory `into` is empty. Where there is room for 1,024 bytes, only a sheet and a part of a list
/// may want memory.
pub fn text_of(alloc: Global, reply: &Reply, into: &mut Bytes) -> Result<u16, Memory>
    ensures status { IfOk result (λ s. s ≡ answer_status reply.now.answer) }
    ensures known { IfOk result IsReplyStatus }
    ensures text { OnOk result (into.new.items ≡ answer_text reply.now.answer) }
    ensures none { OnErr result (into.new.items ≡ []) }
    ensures room { 1024 ≤ into.old.spare + length into.old.items
        → OnErr result (IsTold reply.now.answer) }
{
    into.clear();
    write(alloc, &reply.answer, into)?;
    Ok(status_of(&reply.answer))
}

// Writes the text of an answer into an empty buffer.
fn write(alloc: Global, answer: &Answer, into: &mut Bytes) -> Result<(), Memory>
    requires { into.old.items ≡ [] }
    ensures text { OnOk result (into.new.items ≡ answer_text answer.now) }
    ensures none { OnErr result (into.new.items ≡ []) }
    ensures room { 1024 ≤ into.old.spare → OnErr result (IsTold answer.now) }
{
    let mut writer = Writer::new(into.lend(alloc));
    let put = put_answer(answer, &mut writer);
    into.give_back(writer.into_inner());
    if put.is_err() {
        into.clear();
    }
    put
}

fn put_answer(answer: &Answer, writer: &mut Writer) -> Result<(), Memory>
    ensures puts { Puts result writer.old writer.new (tokens_of (answer_data answer.now)) }
    ensures room { 1024 ≤ writer.old.spare → OnErr result (IsTold answer.now) }
{
    match answer {
        Answer::Done { task, state, owner } => put_done(*task, *state, owner, writer),
        Answer::Turned => put_turned(writer),
        Answer::Sheet(sheet) => put_sheet(sheet.as_sheet(), writer),
        Answer::Page(page) => put_page(page, writer),
        Answer::Notices(page) => put_notices(page, writer),
        Answer::Refused(refusal) => put_refusal(refusal, writer),
    }
}

fn put_done(
    task: TaskId,
    state: State,
    owner: &Option<Name>,
    writer: &mut Writer,
) -> Result<(), Memory>
    ensures puts { Puts result writer.old writer.new
        (tokens_of (answer_data (Done task state owner.now))) }
    ensures room { 1024 ≤ writer.old.spare → IsOk result }
{
    told_short(owner);
    put_short(
        &[
            ("owner", Content::MaybeName(*owner)),
            ("state", Content::State(state)),
            ("task", Content::Number(u64::from(task.0))),
        ],
        writer,
    )
}

fn put_turned(writer: &mut Writer) -> Result<(), Memory>
    ensures puts { Puts result writer.old writer.new (tokens_of (answer_data Turned)) }
    ensures room { 1024 ≤ writer.old.spare → IsOk result }
{
    put_short(&[], writer)
}

// A name is short.
fn told_short(name: &Option<Name>)
    ensures { IsShort name.now }
{
    if let Some(name) = name {
        let _ = name.as_bytes();
    }
}
