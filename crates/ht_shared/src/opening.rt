//! The first steps: the machine is put into the slot.
ghost use Rattle.std.specs.Prelude.{◌≡◌, []};
ghost use Rattle.ht_shared.specs.Rule.{newcomer, beginner};
ghost use Rattle.ht_shared.specs.Standing.{IsPlaceAt};

use crate::board::{Board, NEXT, Place};
use crate::view::View;
use atomic_table::Play;
use ht_base::Stepper;

struct TakingSlot;

impl<T: Stepper> Play<Option<T>, View<T, T::Event, T::Reply>> for TakingSlot {
    ghost use Rattle.ht_shared.specs.Plays.{TakesSlot};

    ghost then = { TakesSlot };
}

struct Beginning;

impl<T: Stepper> Play<Option<T>, View<T, T::Event, T::Reply>> for Beginning {
    ghost use Rattle.ht_shared.specs.Plays.{Begins};

    ghost then = { Begins };
}

/// Puts the machine into the slot, and begins the first pass.
pub(crate) fn put<T: Stepper + Drop>(board: &Board<T>, place: &mut Place<T>, value: T)
    requires board { IsPlaceAt board.now.shared.table_id place.old.table_id }
    requires first { place.old.me ≡ (newcomer, []) }
    requires stands { T.stands value }
    requires key { board.now.shared.key ≡ value }
    ensures board { place.new.table_id ≡ place.old.table_id }
    ensures place { place.new.me ≡ (beginner value, []) }
{
    board.shared.load::<TakingSlot>(place, NEXT);
    drop(board.shared.exchange(place, 0, Some(value)));
    board.shared.load::<Beginning>(place, NEXT);
}
