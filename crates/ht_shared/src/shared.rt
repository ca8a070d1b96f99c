//! The turn lock, as its clients see it.
ghost use Rattle.std.specs.Prelude.{◌≡◌, ◌+◌, ◌^◌, ◌<◌, ◌≤◌, [], ◌∷◌, IfOk, IfErr, OnOk, OnErr, All, Contains, length};
ghost use Rattle.ht_base.specs.History.{own, end_of, IsLegal};
ghost use Rattle.ht_shared.specs.Passes.{IsOf, IsSamePass, Called, IsSpent, Joined, first_of, given_by};

use crate::acting::call_at;
use crate::board::Board;
use crate::numbers::{close_at, give, merge};
use crate::opening::put;
use crate::pass::Pass;
use crate::refusals::{MakeRefusal, SplitRefusal};
use atomic_table::Table;
use ht_base::{Spent, Stepper};
use std::alloc::Global;
use std::marker::Model;
use std::sync::{Mutex, Wait};

/// A machine at which threads take turns.
///
/// A call is a step of the machine, made by the one thread whose turn it is. All calls are one
/// legal history, from the machine as it was given to `make`; each pass has seen a beginning of
/// it. Contracts see which turn lock it is, and the machine at the beginning.
#[derive(Drop)]
pub struct Shared<T: Stepper + Drop> {
    board: Board<T>,
    // Held while a ticket is drawn, waited for and used: who waits for it sleeps, where one with a
    // ticket would look over and over.
    queue: Mutex<()>,
}

impl<T: Stepper + Drop> Model for Shared<T> {
    ghost use Rattle.std.specs.Prelude.{◌≡◌};
    ghost use Rattle.ht_shared.specs.Passes.{SharedOf};

    ghost Value = { SharedOf T };

    ghost view = { λ s. record {
      table = s.board.shared.table_id;
      start = s.board.shared.key;
    } };

    ghost invariant = { λ s. (s.board.shared.table_id.words ≡ 4)
        × (s.board.shared.table_id.slots ≡ 1) };
}

impl<T: Stepper + Drop> Shared<T> {
    /// A turn lock round a machine, and its first pass, whose number is 0 and which has seen
    /// nothing.
    ///
    /// It takes memory once, here. Where there is none, the machine comes back.
    pub fn make(alloc: Global, value: T) -> Result<(Shared<T>, Pass<T>), MakeRefusal<T>>
        requires stands { T.stands value }
        ensures start { IfOk result (λ made. made.0.start ≡ value) }
        ensures first { IfOk result (λ made. made.1 ≡ first_of made.0) }
        ensures back { IfErr result (λ refusal. refusal ≡ MakeRefusal.Memory value) }
    {
        match Table::vacant(alloc, &[0, 0, 0, 1], 1, &value) {
            Err(_) => Err(MakeRefusal::Memory(value)),
            Ok((board, place)) => {
                let mut place = place;
                put(&board, &mut place, value);
                let queue = Mutex::new(());
                Ok((Shared { board, queue }, Pass { place, number: 0 }))
            }
        }
    }

    /// Waits for its turn, and makes one step.
    ///
    /// `Spent` comes where 2^63 tickets were drawn, and from then on at every call; no step was
    /// made then. Not promised: that the turn comes, when it comes, or that callers get their
    /// turns in the order in which they called.
    pub fn call<R: Wait>(
        &self,
        rt: &R,
        pass: &mut Pass<T>,
        event: &T::Event,
    ) -> Result<T::Reply, Spent>
        requires pass { IsOf self.now pass.old }
        requires takes { T.takes event.now }
        ensures pass { IsSamePass pass.old pass.new }
        ensures called { IfOk result
            (λ reply. Called T.relates self.now.start pass.old event.now reply pass.new) }
        ensures low { OnOk result (pass.new.drawn < 2 ^ 63) }
        ensures spent { OnErr result (IsSpent pass.old pass.new) }
    {
        let number = pass.number;
        let _held = self.queue.lock(rt);
        call_at(rt, &self.board, &mut pass.place, number, event)
    }

    /// Gives a new pass, which has seen what the first one has. Its number is how many were given
    /// so far.
    ///
    /// The first pass alone gives passes. It takes no memory, and waits for nobody. `Spent` comes
    /// exactly where 4,294,967,295 passes were given, and then nothing changes.
    pub fn split(&self, pass: &mut Pass<T>) -> Result<Pass<T>, SplitRefusal>
        requires pass { IsOf self.now pass.old }
        requires first { pass.old.number ≡ 0 }
        ensures given { IfOk result (λ given. given ≡ given_by pass.old) }
        ensures counted { OnOk result (pass.new ≡ record pass.old { given = pass.old.given + 1 }) }
        ensures fresh { OnOk result (own pass.old.given pass.old.seen ≡ []) }
        ensures few { OnOk result (pass.old.given < 4294967295) }
        ensures spent { IfErr result (λ refusal. refusal ≡ SplitRefusal.Spent) }
        ensures all { OnErr result (pass.old.given ≡ 4294967295) }
        ensures same { OnErr result (pass.new ≡ pass.old) }
    {
        match give(&self.board, &mut pass.place) {
            None => Err(SplitRefusal::Spent),
            Some((place, number)) => Ok(Pass { place, number }),
        }
    }

    /// Joins another pass into this one, which then answers for the calls of both.
    ///
    /// It takes no memory, and waits for nobody. Who joins the first pass into another can never
    /// close.
    pub fn join(&self, pass: &mut Pass<T>, other: Pass<T>)
        requires pass { IsOf self.now pass.old }
        requires other { IsOf self.now other }
        ensures joined { Joined pass.old other pass.new }
    {
        let Pass { place, number: _ } = other;
        merge(&self.board, &mut pass.place, place);
    }

    /// The machine, once every pass that was given is joined into the first one, whose history is
    /// then that of all calls.
    ///
    /// It waits for nobody.
    pub fn close(self, pass: Pass<T>) -> T
        requires pass { IsOf self pass }
        requires first { pass.number ≡ 0 }
        requires all { length pass.ended + 1 ≡ pass.given }
        ensures stands { T.stands result }
        ensures value { result ≡ end_of self.start pass.seen }
        ensures legal { IsLegal T.relates self.start pass.seen }
        ensures entries { All (λ e. Contains (0 ∷ pass.ended) e.pass) pass.seen }
        ensures found { pass.found ≤ length pass.seen }
    {
        let Shared { board, queue: _ } = self;
        let Pass { place, number: _ } = pass;
        close_at(board, place)
    }
}
