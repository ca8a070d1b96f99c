//! The steps on numbers of passes: number, seat split, seat join, and taking the machine out.
ghost use Rattle.std.specs.Prelude.{◌≡◌, ◌+◌, ◌<◌, ◌≤◌, [], ◌∷◌, Some, None, All, Contains, length, IfNone, IfSome};
ghost use Rattle.ht_base.specs.History.{own, end_of, IsLegal};
ghost use Rattle.ht_shared.specs.Rule.{Continues};
ghost use Rattle.ht_shared.specs.Plays.{numbering, giver, sibling, joined};
ghost use Rattle.ht_shared.specs.Standing.{IsPlaceAt, IsIdle};

use crate::board::{Board, NEXT, PASSES, Place};
use crate::view::View;
use atomic_table::{Join, Play, Split};
use ht_base::Stepper;

struct LookingAtPasses;

impl<T: Stepper> Play<Option<T>, View<T, T::Event, T::Reply>> for LookingAtPasses {
    ghost use Rattle.ht_shared.specs.Plays.{LooksAtPasses};

    ghost then = { LooksAtPasses };
}

struct Numbering;

impl<T: Stepper> Play<Option<T>, View<T, T::Event, T::Reply>> for Numbering {
    ghost use Rattle.ht_shared.specs.Plays.{Numbers};

    ghost then = { Numbers };
}

struct LookingBack;

impl<T: Stepper> Play<Option<T>, View<T, T::Event, T::Reply>> for LookingBack {
    ghost use Rattle.ht_shared.specs.Plays.{LooksBack};

    ghost then = { LooksBack };
}

struct Cutting;

impl<T, E, R> Split<View<T, E, R>> for Cutting {
    ghost use Rattle.ht_shared.specs.Plays.{giver, sibling};

    ghost left = { giver };

    ghost right = { sibling };
}

struct Joining;

impl<T, E, R> Join<View<T, E, R>> for Joining {
    ghost use Rattle.ht_shared.specs.Rule.{left_by_join};
    ghost use Rattle.ht_shared.specs.Plays.{joined};

    ghost both = { joined };

    ghost spent = { left_by_join };
}

/// How many passes were given, as the first pass finds it.
fn look_at_passes<T: Stepper>(board: &Board<T>, place: &mut Place<T>) -> u64
    requires board { IsPlaceAt board.now.shared.table_id place.old.table_id }
    requires idle { (x : T) × IsIdle x place.old.me }
    requires first { place.old.me.0.number ≡ 0 }
    requires none { place.old.me.0.to_give ≡ None }
    ensures board { place.new.table_id ≡ place.old.table_id }
    ensures same { place.new.me ≡ place.old.me }
    ensures given { result ≡ place.old.me.0.given }
    ensures few { result ≤ 4294967295 }
{
    board.shared.load::<LookingAtPasses>(place, PASSES)
}

/// Draws the number of the next pass.
fn draw_number<T: Stepper>(board: &Board<T>, place: &mut Place<T>)
    requires board { IsPlaceAt board.now.shared.table_id place.old.table_id }
    requires idle { (x : T) × IsIdle x place.old.me }
    requires first { place.old.me.0.number ≡ 0 }
    requires none { place.old.me.0.to_give ≡ None }
    requires few { place.old.me.0.given < 4294967295 }
    ensures board { place.new.table_id ≡ place.old.table_id }
    ensures number { place.new.me ≡ (numbering place.old.me.0, []) }
    ensures fresh { own place.old.me.0.given place.old.me.0.seen ≡ [] }
{
    board.shared.fetch_add::<Numbering>(place, PASSES, 1);
}

/// Gives a place with the next number, if there is one, and that number.
pub(crate) fn give<T: Stepper>(board: &Board<T>, place: &mut Place<T>) -> Option<(Place<T>, u32)>
    requires board { IsPlaceAt board.now.shared.table_id place.old.table_id }
    requires idle { (x : T) × IsIdle x place.old.me }
    requires first { place.old.me.0.number ≡ 0 }
    requires none { place.old.me.0.to_give ≡ None }
    ensures board { place.new.table_id ≡ place.old.table_id }
    ensures place { IfSome result (λ r. r.0.table_id ≡ place.old.table_id) }
    ensures sibling { IfSome result (λ r. r.0.me ≡ (sibling (numbering place.old.me.0), [])) }
    ensures number { IfSome result (λ r. r.1 ≡ place.old.me.0.given) }
    ensures left { IfSome result (λ _. place.new.me ≡ (giver (numbering place.old.me.0), [])) }
    ensures fresh { IfSome result (λ _. own place.old.me.0.given place.old.me.0.seen ≡ []) }
    ensures few { IfSome result (λ _. place.old.me.0.given < 4294967295) }
    ensures spent { IfNone result (place.old.me.0.given ≡ 4294967295) }
    ensures same { IfNone result (place.new.me ≡ place.old.me) }
{
    let passes = look_at_passes(board, place);
    if passes >= 4_294_967_295 {
        return None;
    }
    draw_number(board, place);
    let given = board.shared.split_seat::<Cutting>(place);
    Some((given, passes as u32))
}

/// Makes two places one.
pub(crate) fn merge<T: Stepper>(board: &Board<T>, place: &mut Place<T>, other: Place<T>)
    requires board { IsPlaceAt board.now.shared.table_id place.old.table_id }
    requires other { IsPlaceAt board.now.shared.table_id other.table_id }
    requires idle { (x : T) × IsIdle x place.old.me }
    requires idle_too { (x : T) × IsIdle x other.me }
    ensures board { place.new.table_id ≡ place.old.table_id }
    ensures joined { place.new.me ≡ (joined place.old.me.0 other.me.0, []) }
    ensures before { All (Continues (joined place.old.me.0 other.me.0).seen)
        (joined place.old.me.0 other.me.0).before }
{
    board.shared.join_seat::<Joining>(place, other);
    board.shared.load::<LookingBack>(place, NEXT);
}

/// Takes the machine out, when no other pass is left.
pub(crate) fn close_at<T: Stepper + Drop>(board: Board<T>, place: Place<T>) -> T
    requires board { IsPlaceAt board.shared.table_id place.table_id }
    requires idle { (x : T) × IsIdle x place.me }
    requires first { place.me.0.number ≡ 0 }
    requires all { length place.me.0.ended + 1 ≡ place.me.0.given }
    ensures stands { T.stands result }
    ensures value { (x : T) → place.me.0.start ≡ Some x → end_of x place.me.0.seen ≡ result }
    ensures legal { (x : T) → place.me.0.start ≡ Some x
        → IsLegal T.relates x place.me.0.seen }
    ensures entries { All (λ e. Contains (place.me.0.number ∷ place.me.0.ended) e.pass)
        place.me.0.seen }
    ensures found { place.me.0.found ≤ length place.me.0.seen }
{
    let mut closed = board.close_with(place);
    match closed.take(0) {
        Some(value) => {
            closed.free();
            value
        }
        None => unreachable!(),
    }
}
