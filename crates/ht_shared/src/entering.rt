//! The step that puts a call into the history.
ghost use Rattle.std.specs.Prelude.{◌≡◌, true, false};
ghost use base.Stored.{Gv};
ghost use Rattle.ht_shared.specs.Standing.{IsPlaceAt, HasStepped, HasEntered};

use crate::board::{Board, COUNT, Place};
use crate::view::View;
use atomic_table::Play;
use ht_base::Stepper;
use std::marker::{Brand, PhantomData};

// Which call a step enters. What a step tells hangs on a type, and a type can name no value of the
// program, but the code of one in the logic.
trait Naming {
    ghost event: { Gv };

    ghost reply: { Gv };
}

impl Naming for Brand {
    ghost use Rattle.std.specs.Coded.{coded_ℕ};

    ghost event = { coded_ℕ.code 0 };

    ghost reply = { coded_ℕ.code 0 };
}

struct Enters<J: Naming> {
    of: PhantomData<J>,
}

impl<T: Stepper, J: Naming> Play<Option<T>, View<T, T::Event, T::Reply>> for Enters<J> {
    ghost use Rattle.ht_shared.specs.Plays.{EntersAs};

    ghost then = { EntersAs T.Event.row.coded.code T.Reply.row.coded.code J.event J.reply };
}

// Enters the call that J names.
fn enter_as<J: Naming, T: Stepper>(
    board: &Board<T>,
    place: &mut Place<T>,
    event: &T::Event,
    reply: &T::Reply,
)
    requires board { IsPlaceAt board.now.shared.table_id place.old.table_id }
    requires event { J.event ≡ T.Event.row.coded.code event.now }
    requires reply { J.reply ≡ T.Reply.row.coded.code reply.now }
    requires inside { place.old.me.0.inside ≡ true }
    requires fresh { place.old.me.0.entered ≡ false }
    requires holds { HasStepped T.relates T.stands event.now reply.now place.old.me }
    ensures board { place.new.table_id ≡ place.old.table_id }
    ensures entry { HasEntered event.now reply.now place.old.me place.new.me }
{
    board.shared.fetch_add::<Enters<J>>(place, COUNT, 1);
}

/// Enters the call of this event and reply into the history, with the machine that the pass has
/// as the state behind it.
pub(crate) fn enter<T: Stepper>(
    board: &Board<T>,
    place: &mut Place<T>,
    event: &T::Event,
    reply: &T::Reply,
)
    requires board { IsPlaceAt board.now.shared.table_id place.old.table_id }
    requires inside { place.old.me.0.inside ≡ true }
    requires fresh { place.old.me.0.entered ≡ false }
    requires holds { HasStepped T.relates T.stands event.now reply.now place.old.me }
    ensures board { place.new.table_id ≡ place.old.table_id }
    ensures entry { HasEntered event.now reply.now place.old.me place.new.me }
{
    enter_as::<Brand, T>(board, place, event, reply)
}
