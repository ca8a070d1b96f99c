ghost use Rattle.std.specs.Prelude.{◌≡◌, ◌≢◌, ◌+◌, ◌<◌, ◌≤◌, [], MatchOption};
ghost use Rattle.ht_serve.specs.Closing as spec;
ghost use Rattle.ht_serve.specs.Inputs.{IsEndingOf};
ghost use Rattle.ht_serve.specs.Serving.{Follows, Goes, Served, sides_of};

use crate::answering::{Buffers, reply_to};
use crate::texts::refused_text;
use crate::{Caller, Ending, Gate};
use ht_outside::{Clock, Failed, Link};
use ht_wire::{Buffer, Next, next_request, write_reply};
use std::alloc::Global;

/// Serves a connection: calls the events of its requests, in order, at the moments of the clock, and
/// writes their replies. At most `budget` requests are answered. Where `closing` is true the reply to
/// the last of these closes the connection.
pub fn serve_connection<Q: Caller, L: Link, C: Clock, G: Gate>(
    alloc: Global,
    caller: &mut Q,
    link: &mut L,
    clock: &mut C,
    gate: &G,
    connection: u32,
    budget: u32,
    closing: bool,
) -> Ending
    requires some { 1 ≤ budget }
    requires stands { Q.stands caller.old }
    ensures served { Served (Q.made caller.old caller.new) (Q.spent caller.new) closing budget 0
        (sides_of L.Source L.Sink C.Clock link.old clock.old)
        (sides_of L.Source L.Sink C.Clock link.new clock.new) [] result }
    ensures exact { result ≢ Ending.ReadFault → result ≢ Ending.WriteFault → result ≢ Ending.Memory
        → IsEndingOf closing budget (L.Source.source_state link.old).flow result }
    ensures kept { Q.spent caller.old → Q.spent caller.new }
    ensures stands { Q.stands caller.new }
    ensures same_caller { Q.same caller.old caller.new }
    ensures same { L.same link.old link.new }
{
    let Ok(mut buffers) = Buffers::new(alloc) else {
        return Ending::Memory;
    };
    for number in 0..budget {
        let served = serve_next(
            alloc,
            caller,
            link,
            clock,
            gate,
            connection,
            number,
            budget,
            closing,
            &mut buffers,
        );
        if let Some(ending) = served {
            return ending;
        }
    }
    what_follows(alloc, link, &mut buffers.input)
}

// Reads the request of this number and answers it, or says how the connection ended.
fn serve_next<Q: Caller, L: Link, C: Clock, G: Gate>(
    alloc: Global,
    caller: &mut Q,
    link: &mut L,
    clock: &mut C,
    gate: &G,
    connection: u32,
    number: u32,
    most: u32,
    closing: bool,
    buffers: &mut Buffers,
) -> Option<Ending>
    requires few { number < most }
    requires stands { Q.stands caller.old }
    ensures served { MatchOption result
        (Goes (Q.made caller.old caller.new) (Q.spent caller.new) closing most number (number + 1)
        (sides_of L.Source L.Sink C.Clock link.old clock.old)
        (sides_of L.Source L.Sink C.Clock link.new clock.new)
        buffers.old.input buffers.new.input)
        (Served (Q.made caller.old caller.new) (Q.spent caller.new) closing most number
        (sides_of L.Source L.Sink C.Clock link.old clock.old)
        (sides_of L.Source L.Sink C.Clock link.new clock.new)
        buffers.old.input) }
    ensures kept { Q.spent caller.old → Q.spent caller.new }
    ensures stands { Q.stands caller.new }
    ensures same_caller { Q.same caller.old caller.new }
    ensures same { L.same link.old link.new }
{
    match next_request(alloc, link, &mut buffers.input) {
        Next::Request(request) => {
            let at = clock.now();
            let closes = closes_at(closing, most, number, request.last);
            gate.enter(connection);
            let replied = reply_to(alloc, caller, &request, at, closes, link, buffers);
            gate.leave(connection);
            match replied {
                Ok(()) => {
                    if closes {
                        return Some(Ending::Done);
                    }
                    None
                }
                Err(Failed) => Some(Ending::WriteFault),
            }
        }
        Next::End => Some(Ending::Done),
        Next::Refused(code) => match write_reply(link, code, refused_text(code), true) {
            Ok(()) => Some(Ending::Wire(code)),
            Err(Failed) => Some(Ending::WriteFault),
        },
        Next::ReadFault => Some(Ending::ReadFault),
        Next::Memory => Some(Ending::Memory),
    }
}

// Whether the reply to the request of this number closes the connection.
fn closes_at(closing: bool, most: u32, number: u32, last: bool) -> bool
    requires { number < most }
    ensures { result ≡ spec.closes_at closing most number last }
{
    last || (closing && number + 1 == most)
}

// Whether more input stands behind the last request that may be answered.
fn what_follows<L: Link>(alloc: Global, link: &mut L, buffer: &mut Buffer) -> Ending
    ensures follows { Follows (L.Source.source_state link.old) (L.Source.source_state link.new)
        buffer.old result }
    ensures beside { L.Sink.sink_state link.new ≡ L.Sink.sink_state link.old }
    ensures same { L.same link.old link.new }
{
    match next_request(alloc, link, buffer) {
        Next::Request(_) => Ending::Budget,
        Next::End => Ending::Done,
        Next::Refused(_) => Ending::Budget,
        Next::ReadFault => Ending::ReadFault,
        Next::Memory => Ending::Memory,
    }
}
