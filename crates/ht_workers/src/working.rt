ghost use Rattle.std.specs.Prelude.{[], Some, None, true};
ghost use Rattle.ht_serve.specs.Serving.{Served, sides_of};
ghost use Rattle.ht_shared.specs.Passes.{IsOf, IsSamePass};
ghost use Rattle.ht_workers.specs.Passing.{IsOutOfTickets, PassMade};
ghost use Rattle.ht_workers.specs.Working.{EndsWork, connection_budget};

use crate::{Line, Tickets};
use ht_doors::Door;
use ht_outside::{Clock, Failed, Link};
use ht_serve::{Ending, Gate, TakesEvents, serve_connection};
use ht_shared::{Pass, Shared};
use std::alloc::Global;
use std::sync::Wait;

// The most requests of one connection.
const BUDGET: u32 = 10_000;

/// How a worker ended.
#[derive(Clone, Copy, Debug, PartialEq, Eq)]
pub enum WorkEnd {
    /// Its share of the connections was served.
    Done,
    /// A call of its door failed.
    Door,
    /// There was no memory for a connection.
    Memory,
}

/// Takes as many connections as `share` says, one after another, and without a share goes on without
/// end. Each is served and handed back before the next one is taken. At most 10000 requests of one
/// connection are answered.
///
/// A connection whose own ending is a fault, or a refusal, is handed back like any other. `Door` comes
/// only where a call of the door failed.
pub fn work<T: TakesEvents + Drop, D: Door, C: Clock, G: Gate, R: Wait>(
    rt: &R,
    alloc: Global,
    shared: &Shared<T>,
    pass: &mut Pass<T>,
    door: &mut D,
    clock: &mut C,
    gate: &G,
    tickets: &Tickets,
    share: Option<u32>,
) -> WorkEnd
    requires pass { IsOf shared.now pass.old }
    ensures ends { EndsWork (PassMade T.relates pass.old pass.new) (IsOutOfTickets pass.new) share
        (D.door_state door.old) (D.door_state door.new) result }
    ensures pass { IsSamePass pass.old pass.new }
{
    let end = match share {
        Some(most) => work_on(rt, alloc, shared, pass, door, clock, gate, tickets, most),
        None => go_on(rt, alloc, shared, pass, door, clock, gate, tickets),
    };
    tickets.leave();
    end
}

// Serves so many connections.
fn work_on<T: TakesEvents + Drop, D: Door, C: Clock, G: Gate, R: Wait>(
    rt: &R,
    alloc: Global,
    shared: &Shared<T>,
    pass: &mut Pass<T>,
    door: &mut D,
    clock: &mut C,
    gate: &G,
    tickets: &Tickets,
    most: u32,
) -> WorkEnd
    requires pass { IsOf shared.now pass.old }
    ensures ends { EndsWork (PassMade T.relates pass.old pass.new) (IsOutOfTickets pass.new) (Some most)
        (D.door_state door.old) (D.door_state door.new) result }
    ensures pass { IsSamePass pass.old pass.new }
{
    for number in 0..most {
        let _ = number;
        match serve_one(rt, alloc, shared, pass, door, clock, gate, tickets) {
            WorkEnd::Done => {}
            end => return end,
        }
    }
    WorkEnd::Done
}

// Serves one connection after another, without end.
fn go_on<T: TakesEvents + Drop, D: Door, C: Clock, G: Gate, R: Wait>(
    rt: &R,
    alloc: Global,
    shared: &Shared<T>,
    pass: &mut Pass<T>,
    door: &mut D,
    clock: &mut C,
    gate: &G,
    tickets: &Tickets,
) -> WorkEnd
    requires pass { IsOf shared.now pass.old }
    ensures ends { EndsWork (PassMade T.relates pass.old pass.new) (IsOutOfTickets pass.new) None
        (D.door_state door.old) (D.door_state door.new) result }
    ensures pass { IsSamePass pass.old pass.new }
{
    for _ in rt.forever() {
        match serve_one(rt, alloc, shared, pass, door, clock, gate, tickets) {
            WorkEnd::Done => {}
            end => return end,
        }
    }
    unreachable!()
}

// Takes a connection, serves it and hands it back, or says how the worker ended.
fn serve_one<T: TakesEvents + Drop, D: Door, C: Clock, G: Gate, R: Wait>(
    rt: &R,
    alloc: Global,
    shared: &Shared<T>,
    pass: &mut Pass<T>,
    door: &mut D,
    clock: &mut C,
    gate: &G,
    tickets: &Tickets,
) -> WorkEnd
    requires pass { IsOf shared.now pass.old }
    ensures ends { EndsWork (PassMade T.relates pass.old pass.new) (IsOutOfTickets pass.new) (Some 1)
        (D.door_state door.old) (D.door_state door.new) result }
    ensures pass { IsSamePass pass.old pass.new }
{
    let Ok(link) = door.accept() else {
        return WorkEnd::Door;
    };
    let mut link = link;
    let connection = tickets.next();
    let ending = serve_link(rt, alloc, shared, pass, &mut link, clock, gate, connection);
    if let Ending::Memory = ending {
        return WorkEnd::Memory;
    }
    match door.leave(link) {
        Ok(()) => WorkEnd::Done,
        Err(Failed) => WorkEnd::Door,
    }
}

// Serves a link by this pass.
fn serve_link<T: TakesEvents + Drop, L: Link, C: Clock, G: Gate, R: Wait>(
    rt: &R,
    alloc: Global,
    shared: &Shared<T>,
    pass: &mut Pass<T>,
    link: &mut L,
    clock: &mut C,
    gate: &G,
    connection: u32,
) -> Ending
    requires pass { IsOf shared.now pass.old }
    ensures served { Served (PassMade T.relates pass.old pass.new) (IsOutOfTickets pass.new)
        true connection_budget 0
        (sides_of L.Source L.Sink C.Clock link.old clock.old)
        (sides_of L.Source L.Sink C.Clock link.new clock.new) [] result }
    ensures pass { IsSamePass pass.old pass.new }
{
    let mut line = Line {
        rt,
        shared,
        pass: &mut *pass,
    };
    let ending = serve_connection(
        alloc, &mut line, link, clock, gate, connection, BUDGET, true,
    );
    let Line {
        rt: _,
        shared: _,
        pass: _,
    } = line;
    ending
}
