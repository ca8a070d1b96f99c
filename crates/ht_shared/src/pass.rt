//! A pass.
use crate::board::Place;
use ht_base::Stepper;
use std::marker::Model;

/// The right to call a machine behind a turn lock: a caller of its own in the history.
///
/// Contracts see it as a [`PassOf`]: its number, the history that it has seen, the numbers that
/// were joined into it, what it found where no ticket was left, and how many passes were given.
#[derive(Drop)]
pub struct Pass<T: Stepper> {
    pub(crate) place: Place<T>,
    pub(crate) number: u32,
}

impl<T: Stepper> Model for Pass<T> {
    ghost use Rattle.std.specs.Prelude.{◌≡◌, [], None, false};
    ghost use Rattle.ht_shared.specs.Passes.{PassOf};

    ghost Value = { PassOf T T.Event T.Reply };

    ghost view = { λ p. record {
      table = p.place.table_id;
      start = p.place.me.0.start;
      number = p.place.me.0.number;
      seen = p.place.me.0.seen;
      ended = p.place.me.0.ended;
      drawn = p.place.me.0.drawn;
      found = p.place.me.0.found;
      given = p.place.me.0.given;
    } };

    ghost invariant = { λ p. (p.number ≡ p.place.me.0.number)
        × (p.place.me.0.to_give ≡ None)
        × (p.place.me.0.ticket ≡ None)
        × (p.place.me.0.inside ≡ false)
        × (p.place.me.0.entered ≡ false)
        × (p.place.me.1 ≡ []) };
}
