//! Where the words of a turn lock and its machine lie, and the rule that every step keeps.
use crate::view::View;
use atomic_table::{Seat, Table, TableRule};
use ht_base::Stepper;
use std::alloc::Global;
use std::marker::PhantomData;

/// The word `next`: how many tickets were drawn.
pub(crate) const NEXT: usize = 0;

/// The word `count`: how many calls were entered.
pub(crate) const COUNT: usize = 1;

/// The word `serving`: the ticket whose turn it is.
pub(crate) const SERVING: usize = 2;

/// The word `passes`: how many numbers of passes were drawn.
pub(crate) const PASSES: usize = 3;

/// The rule of the turn lock.
pub struct Turns<T: Stepper> {
    of: PhantomData<T>,
}

impl<T: Stepper> TableRule<Option<T>, View<T, T::Event, T::Reply>, T> for Turns<T> {
    ghost use Rattle.ht_shared.specs.Rule.{Holds, newcomer};

    ghost holds = { Holds T.relates T.stands };

    ghost first = { λ _. newcomer };
}

/// Four words and one slot, in which the machine lies while no pass is inside. The key is the
/// machine as it was at the beginning.
pub(crate) type Board<T> = Table<
    Option<T>,
    View<T, <T as Stepper>::Event, <T as Stepper>::Reply>,
    T,
    Turns<T>,
    Global,
>;

/// A place at the board, by which steps are made.
pub(crate) type Place<T> = Seat<Option<T>, View<T, <T as Stepper>::Event, <T as Stepper>::Reply>>;
