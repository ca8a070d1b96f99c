ghost use Rattle.std.specs.Prelude.{◌≡◌, ◌≤◌, IfOk, MatchOption, MatchResult, length, drop, option_map};
ghost use Rattle.http_header.specs.Token.{IsToken};
ghost use Rattle.httparse.specs.Spans.{IsRequestWithin, span_bytes};
ghost use Rattle.ht_outside.specs.Causes.{RoseWhere};
ghost use Rattle.ht_wire.specs.Buffering.{FindsHead, FindsBody, ReadsWhereNeeded, failure};
ghost use Rattle.ht_wire.specs.Fields as spec;
ghost use Rattle.ht_wire.specs.GivingOut.{GivesOut, fields_at};
ghost use Rattle.ht_wire.specs.Reading.{Reads};
ghost use Rattle.ht_wire.specs.Requests.{IsCutShort, IsUnfinished};
ghost use Rattle.ht_wire.specs.Window.{front};

use crate::bodies::body_length;
use crate::buffer::FillFault;
use crate::fields::said_in;
use crate::limits::{LONGEST_HEAD, MOST_FIELDS};
use crate::looking::{Sight, look};
use crate::{Buffer, Request};
use ht_base::{Bytes, Memory, Name};
use ht_outside::Link;
use http::Method;
use http::method::MethodError;
use httparse::spans::{HeaderSpan, RequestSpans};
use std::alloc::Global;

// Each look but the last is followed by a read of at least one byte.
const LOOKS: usize = LONGEST_HEAD + 1;

// The status codes of the refusals (RFC 9110, 15.5.1, 15.5.14 and 15.6.2; RFC 6585, 5).
pub(crate) const BAD_REQUEST: u16 = 400;

pub(crate) const CONTENT_TOO_LARGE: u16 = 413;

const FIELDS_TOO_LARGE: u16 = 431;

pub(crate) const NOT_IMPLEMENTED: u16 = 501;

/// What comes next on a connection.
#[derive(Drop)]
pub enum Next {
    Request(Request),
    /// No further request: only CR and LF are left.
    End,
    /// No request can be read. The status code of the reply.
    Refused(u16),
    ReadFault,
    Memory,
}

/// Reads the next request (RFC 9112, sections 2 to 6). Bytes behind it stay in the buffer. A head
/// has at most 16,384 bytes and 64 fields: more are refused with 431, and what is no head, or ends
/// before one does, with 400. Behind a head stand as many bytes of a body as `content-length` says,
/// at most 1,048,576: more are refused with 413, a length that is none or a body that ends early
/// with 400, and a transfer coding with 501. It reads only where more
/// bytes are needed.
pub fn next_request<L: Link>(alloc: Global, link: &mut L, buffer: &mut Buffer) -> Next
    ensures reads { Reads (L.Source.source_state link.old).flow
        (L.Source.source_state link.new).flow buffer.old buffer.new result }
    ensures buffered { (IsUnfinished buffer.old → ⊥) → link.new ≡ link.old }
    ensures beside { L.Sink.sink_state link.new ≡ L.Sink.sink_state link.old }
    ensures same { L.same link.old link.new }
    ensures cause { RoseWhere (result ≡ Next.ReadFault) (L.Source.source_state link.old).faults
        (L.Source.source_state link.new).faults }
{
    let Ok(mut room) = buffer.take_room(alloc) else {
        return Next::Memory;
    };
    let next = next_within(alloc, link, buffer, &mut room);
    buffer.put_room(room);
    next
}

// The same, in this room for the fields of a head.
fn next_within<L: Link>(
    alloc: Global,
    link: &mut L,
    buffer: &mut Buffer,
    headers: &mut [HeaderSpan; MOST_FIELDS],
) -> Next
    ensures reads { Reads (L.Source.source_state link.old).flow
        (L.Source.source_state link.new).flow buffer.old buffer.new result }
    ensures buffered { (IsUnfinished buffer.old → ⊥) → link.new ≡ link.old }
    ensures beside { L.Sink.sink_state link.new ≡ L.Sink.sink_state link.old }
    ensures same { L.same link.old link.new }
    ensures cause { RoseWhere (result ≡ Next.ReadFault) (L.Source.source_state link.old).faults
        (L.Source.source_state link.new).faults }
{
    match next_head(link, buffer, headers) {
        Ok(head) => give_out(alloc, link, buffer, headers, &head),
        Err(next) => next,
    }
}

// Reads until a whole head stands in front, or says what stands there instead.
fn next_head<L: Link>(
    link: &mut L,
    buffer: &mut Buffer,
    headers: &mut [HeaderSpan; MOST_FIELDS],
) -> Result<RequestSpans, Next>
    ensures finds { FindsHead (L.Source.source_state link.old).flow
        (L.Source.source_state link.new).flow buffer.old buffer.new headers.new result }
    ensures buffered { ReadsWhereNeeded link.old link.new buffer.old buffer.new }
    ensures beside { L.Sink.sink_state link.new ≡ L.Sink.sink_state link.old }
    ensures same { L.same link.old link.new }
    ensures cause { MatchResult result
        (λ _. (L.Source.source_state link.old).faults ≤ (L.Source.source_state link.new).faults)
        (λ next.
        RoseWhere (next ≡ Next.ReadFault) (L.Source.source_state link.old).faults
        (L.Source.source_state link.new).faults) }
{
    for _ in 0..LOOKS {
        match look(buffer.front(), headers) {
            Sight::Head(head) => return Ok(head),
            Sight::TooLong => return Err(Next::Refused(FIELDS_TOO_LARGE)),
            Sight::NoHead => return Err(Next::Refused(BAD_REQUEST)),
            Sight::Blank => match buffer.fill(link, LONGEST_HEAD) {
                Ok(0) => return Err(Next::End),
                Ok(_) => {}
                Err(fault) => return Err(failed(fault)),
            },
            Sight::Partial => match buffer.fill(link, LONGEST_HEAD) {
                Ok(0) => return Err(Next::Refused(BAD_REQUEST)),
                Ok(_) => {}
                Err(fault) => return Err(failed(fault)),
            },
        }
    }
    unreachable!()
}

// Reads until so many bytes are there, or says why they aren't.
fn read_to<L: Link>(link: &mut L, buffer: &mut Buffer, end: usize) -> Option<Next>
    ensures finds { FindsBody end (L.Source.source_state link.old).flow
        (L.Source.source_state link.new).flow buffer.old buffer.new result }
    ensures still { end ≤ length buffer.old → link.new ≡ link.old }
    ensures beside { L.Sink.sink_state link.new ≡ L.Sink.sink_state link.old }
    ensures same { L.same link.old link.new }
    ensures cause { MatchOption result
        ((L.Source.source_state link.old).faults ≤ (L.Source.source_state link.new).faults)
        (λ next.
        RoseWhere (next ≡ Next.ReadFault) (L.Source.source_state link.old).faults
        (L.Source.source_state link.new).faults) }
{
    while buffer.pending().len() < end {
        match buffer.fill(link, end.max(LONGEST_HEAD)) {
            Ok(0) => return Some(Next::Refused(BAD_REQUEST)),
            Ok(_) => {}
            Err(fault) => return Some(failed(fault)),
        }
    }
    None
}

fn failed(fault: FillFault) -> Next
    ensures { result ≡ failure fault }
{
    match fault {
        FillFault::Failed => Next::ReadFault,
        FillFault::Memory => Next::Memory,
    }
}

// The head that stands in front in the buffer, and the body behind it, as a request.
fn give_out<L: Link>(
    alloc: Global,
    link: &mut L,
    buffer: &mut Buffer,
    headers: &[HeaderSpan],
    head: &RequestSpans,
) -> Next
    requires within { IsRequestWithin (front buffer.old) headers.now head.now }
    requires token { IsToken (span_bytes (front buffer.old) head.now.method) }
    ensures gives { GivesOut (L.Source.source_state link.old).flow
        (L.Source.source_state link.new).flow buffer.old headers.now head.now buffer.new result }
    ensures still { (IsCutShort (fields_at (front buffer.old) headers.now head.now)
        (drop head.now.len buffer.old) → ⊥) → link.new ≡ link.old }
    ensures beside { L.Sink.sink_state link.new ≡ L.Sink.sink_state link.old }
    ensures same { L.same link.old link.new }
    ensures cause { RoseWhere (result ≡ Next.ReadFault) (L.Source.source_state link.old).faults
        (L.Source.source_state link.new).faults }
{
    let front = buffer.front();
    let fields = &headers[..head.headers];
    let said = said_in(front, fields);
    let length = match body_length(front, fields, said.bare) {
        Ok(length) => length,
        Err(code) => return Next::Refused(code),
    };
    let Ok(method) = method_of(alloc, head.method.of(front)) else {
        return Next::Memory;
    };
    let Ok(target) = Bytes::of(alloc, head.path.of(front)) else {
        return Next::Memory;
    };
    let person = name_in(said.person);
    let last = (head.version == 0) | said.close;
    if length == 0 {
        buffer.consume(head.len);
        let body = Bytes::new(alloc);
        return Next::Request(Request {
            method,
            target,
            person,
            last,
            body,
        });
    }
    let end = head.len + length;
    if let Some(next) = read_to(link, buffer, end) {
        return next;
    }
    match Bytes::of(alloc, &buffer.pending()[head.len..end]) {
        Ok(body) => {
            buffer.consume(end);
            Next::Request(Request {
                method,
                target,
                person,
                last,
                body,
            })
        }
        Err(Memory) => Next::Memory,
    }
}

fn method_of(alloc: Global, bytes: &[u8]) -> Result<Method, Memory>
    requires { IsToken bytes.now }
    ensures { IfOk result (λ method. method ≡ bytes.now) }
{
    match Method::from_bytes(alloc, bytes) {
        Ok(method) => Ok(method),
        Err(MethodError::OutOfMemory) => Err(Memory),
        Err(MethodError::Invalid) => unreachable!(),
    }
}

fn name_in(value: Option<&[u8]>) -> Option<Name>
    ensures { result ≡ spec.name_in (option_map (λ v. v.now) value.entry) }
{
    match value {
        Some(value) => Name::of(value),
        None => None,
    }
}
