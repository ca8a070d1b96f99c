//! The steps of a turn that say nothing of a call: look, draw, arrive and pass on.
ghost use Rattle.std.specs.Prelude.{◌≡◌, ℕ, ◌-◌, ◌^◌, ◌<◌, ◌≤◌, [], Some, true, MatchBool};
ghost use Rattle.ht_shared.specs.Plays.{looked, counted, holder, outside, IsIn};
ghost use Rattle.ht_shared.specs.Standing.{IsIdle, IsFree, IsPlaceAt, HasEnd};

use crate::board::{Board, COUNT, NEXT, Place, SERVING};
use crate::view::View;
use atomic_table::Play;
use ht_base::Stepper;

struct LookingAtNext;

impl<T: Stepper> Play<Option<T>, View<T, T::Event, T::Reply>> for LookingAtNext {
    ghost use Rattle.ht_shared.specs.Plays.{LooksAtNext};

    ghost then = { LooksAtNext };
}

struct LookingAtCount;

impl<T: Stepper> Play<Option<T>, View<T, T::Event, T::Reply>> for LookingAtCount {
    ghost use Rattle.ht_shared.specs.Plays.{LooksAtCount};

    ghost then = { LooksAtCount };
}

struct Drawing;

impl<T: Stepper> Play<Option<T>, View<T, T::Event, T::Reply>> for Drawing {
    ghost use Rattle.ht_shared.specs.Plays.{Draws};

    ghost then = { Draws };
}

struct Arriving;

impl<T: Stepper> Play<Option<T>, View<T, T::Event, T::Reply>> for Arriving {
    ghost use Rattle.ht_shared.specs.Plays.{Arrives};

    ghost then = { Arrives T.relates T.stands };
}

struct Passing;

impl<T: Stepper> Play<Option<T>, View<T, T::Event, T::Reply>> for Passing {
    ghost use Rattle.ht_shared.specs.Plays.{PassesOn};

    ghost then = { PassesOn };
}

/// The ticket that would be drawn next.
pub(crate) fn look_at_next<T: Stepper>(board: &Board<T>, place: &mut Place<T>) -> u64
    requires board { IsPlaceAt board.now.shared.table_id place.old.table_id }
    requires idle { (x : T) × IsIdle x place.old.me }
    ensures board { place.new.table_id ≡ place.old.table_id }
    ensures looked { place.new.me ≡ (looked place.old.me.0 result, []) }
    ensures drawn { place.old.me.0.drawn ≤ result }
{
    board.shared.load::<LookingAtNext>(place, NEXT)
}

/// How many calls were entered.
pub(crate) fn look_at_count<T: Stepper>(board: &Board<T>, place: &mut Place<T>) -> u64
    requires board { IsPlaceAt board.now.shared.table_id place.old.table_id }
    requires idle { (x : T) × IsIdle x place.old.me }
    ensures board { place.new.table_id ≡ place.old.table_id }
    ensures looked { place.new.me ≡ (counted place.old.me.0 result, []) }
    ensures many { 2 ^ 63 ≤ place.old.me.0.drawn → 2 ^ 63 - 2 ^ 32 ≤ result }
{
    board.shared.load::<LookingAtCount>(place, COUNT)
}

/// Draws this ticket, unless another was faster.
pub(crate) fn draw<T: Stepper>(board: &Board<T>, place: &mut Place<T>, ticket: u64) -> bool
    requires board { IsPlaceAt board.now.shared.table_id place.old.table_id }
    requires idle { (x : T) × IsIdle x place.old.me }
    requires low { ticket < 2 ^ 63 }
    ensures board { place.new.table_id ≡ place.old.table_id }
    ensures ticket { MatchBool result
        (place.new.me ≡ (holder place.old.me.0 ticket, []))
        (place.new.me ≡ place.old.me) }
{
    board
        .shared
        .compare_exchange::<Drawing>(place, NEXT, ticket, ticket + 1)
        == ticket
}

/// Goes inside, if it is the ticket's turn.
pub(crate) fn arrive<T: Stepper>(board: &Board<T>, place: &mut Place<T>, ticket: u64) -> bool
    requires board { IsPlaceAt board.now.shared.table_id place.old.table_id }
    requires free { (x : T) × IsFree x place.old.me }
    requires ticket { place.old.me.0.ticket ≡ Some ticket }
    ensures board { place.new.table_id ≡ place.old.table_id }
    ensures turn { MatchBool result
        (IsIn T.relates T.stands place.old.me place.new.me)
        (place.new.me ≡ place.old.me) }
{
    board.shared.load::<Arriving>(place, SERVING) == ticket
}

/// Goes outside, and makes it the next ticket's turn.
pub(crate) fn pass_on<T: Stepper>(board: &Board<T>, place: &mut Place<T>, ticket: u64)
    requires board { IsPlaceAt board.now.shared.table_id place.old.table_id }
    requires inside { place.old.me.0.inside ≡ true }
    requires entered { place.old.me.0.entered ≡ true }
    requires ticket { place.old.me.0.ticket ≡ Some ticket }
    requires value { HasEnd place.old.me }
    requires low { ticket < 2 ^ 63 }
    ensures board { place.new.table_id ≡ place.old.table_id }
    ensures out { place.new.me ≡ (outside place.old.me.0, []) }
{
    board.shared.store::<Passing>(place, SERVING, ticket + 1);
}
