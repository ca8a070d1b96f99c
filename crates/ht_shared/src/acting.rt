//! A whole turn: a ticket is drawn and waited for, and a step is made and entered.
ghost use Rattle.std.specs.Prelude.{◌≡◌, ◌^◌, ◌<◌, [], Some, true, false, OnSome, MatchOption, IfOk, IfSome, OnOk, OnErr};
ghost use Rattle.ht_shared.specs.Plays.{holder, IsIn};
ghost use Rattle.ht_shared.specs.Standing.{IsPlaceAt, IsIdle, IsFree, IsLeftOut, HasMachine, HasActed, Acts};

use crate::board::{Board, Place};
use crate::entering::enter;
use crate::turning::{arrive, draw, look_at_count, look_at_next, pass_on};
use crossbeam_utils::Backoff;
use ht_base::{Spent, Stepper};
use std::sync::Wait;

/// Draws a ticket, if there is one left.
fn take_ticket<T: Stepper, R: Wait>(rt: &R, board: &Board<T>, place: &mut Place<T>) -> Option<u64>
    requires board { IsPlaceAt board.now.shared.table_id place.old.table_id }
    requires idle { (x : T) × IsIdle x place.old.me }
    ensures board { place.new.table_id ≡ place.old.table_id }
    ensures ticket { MatchOption result
        (IsLeftOut place.old.me place.new.me)
        (λ n. place.new.me ≡ (holder place.old.me.0 n, [])) }
    ensures small { IfSome result (λ n. n < 2 ^ 63) }
    ensures low { OnSome result (place.old.me.0.drawn < 2 ^ 63) }
{
    let backoff = Backoff::new();
    for _ in rt.forever() {
        let ticket = look_at_next(board, place);
        if ticket >= 1 << 63 {
            look_at_count(board, place);
            return None;
        }
        if draw(board, place, ticket) {
            return Some(ticket);
        }
        backoff.spin();
    }
    unreachable!()
}

/// Waits until it is the ticket's turn, and goes inside.
fn await_turn<T: Stepper, R: Wait>(rt: &R, board: &Board<T>, place: &mut Place<T>, ticket: u64)
    requires board { IsPlaceAt board.now.shared.table_id place.old.table_id }
    requires free { (x : T) × IsFree x place.old.me }
    requires ticket { place.old.me.0.ticket ≡ Some ticket }
    ensures board { place.new.table_id ≡ place.old.table_id }
    ensures turn { IsIn T.relates T.stands place.old.me place.new.me }
{
    let backoff = Backoff::new();
    for _ in rt.forever() {
        if arrive(board, place, ticket) {
            return;
        }
        backoff.snooze();
    }
    unreachable!()
}

/// Makes a step of the machine where it lies, enters it, and passes the turn on.
fn act<T: Stepper>(
    board: &Board<T>,
    place: &mut Place<T>,
    number: u32,
    ticket: u64,
    event: &T::Event,
) -> T::Reply
    requires board { IsPlaceAt board.now.shared.table_id place.old.table_id }
    requires inside { place.old.me.0.inside ≡ true }
    requires fresh { place.old.me.0.entered ≡ false }
    requires ticket { place.old.me.0.ticket ≡ Some ticket }
    requires value { HasMachine T.stands place.old.me }
    requires takes { T.takes event.now }
    requires low { ticket < 2 ^ 63 }
    ensures board { place.new.table_id ≡ place.old.table_id }
    ensures entry { HasActed T.relates event.now result place.old.me place.new.me }
{
    match place.slot_mut(&board.shared, 0) {
        Some(value) => {
            let reply = value.step(number, event);
            enter(board, place, event, &reply);
            pass_on(board, place, ticket);
            reply
        }
        None => unreachable!(),
    }
}

/// Waits for its turn, and makes one step.
pub(crate) fn call_at<T: Stepper, R: Wait>(
    rt: &R,
    board: &Board<T>,
    place: &mut Place<T>,
    number: u32,
    event: &T::Event,
) -> Result<T::Reply, Spent>
    requires board { IsPlaceAt board.now.shared.table_id place.old.table_id }
    requires idle { (x : T) × IsIdle x place.old.me }
    requires takes { T.takes event.now }
    ensures board { place.new.table_id ≡ place.old.table_id }
    ensures acts { IfOk result
        (λ reply. Acts T.relates place.old.me.0 event.now reply place.new.me) }
    ensures low { OnOk result (place.old.me.0.drawn < 2 ^ 63) }
    ensures spent { OnErr result (IsLeftOut place.old.me place.new.me) }
{
    match take_ticket(rt, board, place) {
        None => Err(Spent),
        Some(ticket) => {
            await_turn(rt, board, place, ticket);
            Ok(act(board, place, number, ticket, event))
        }
    }
}
