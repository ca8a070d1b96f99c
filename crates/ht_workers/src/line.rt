ghost use Rattle.std.specs.Prelude.{◌≡◌, refl};
ghost use Rattle.std.proofs.Common.{◌∙◌};
ghost use Rattle.ht_shared.specs.Passes.{IsOf};
ghost use Rattle.ht_workers.specs.Passing.{IsOutOfTickets, PassMade};
ghost use Rattle.ht_workers.specs.PassLaws.{pass_more, pass_none};

use ht_base::{Event, Reply, Spent};
use ht_serve::{Caller, TakesEvents};
use ht_shared::{Pass, Shared};
use std::sync::Wait;

/// The caller of a pass, which waits for its turn at each call. It is spent where it found that no
/// ticket is left, and keeps the pass and the turn lock that it was given.
#[derive(Drop)]
pub struct Line<'a, T: TakesEvents + Drop, R: Wait> {
    pub rt: &'a R,
    pub shared: &'a Shared<T>,
    pub pass: &'a mut Pass<T>,
}

impl<'a, T: TakesEvents + Drop, R: Wait> Caller for Line<'a, T, R> {
    ghost made = { λ p q calls. PassMade T.relates p.pass.now q.pass.now calls };

    ghost spent = { λ q. IsOutOfTickets q.pass.now };

    ghost stands = { λ q. IsOf q.shared.now q.pass.now };

    ghost same = { λ p q. (q.pass.ghost_name ≡ p.pass.ghost_name)
        × (q.shared.now ≡ p.shared.now) };

    ghost made_none = { λ q. pass_none _ _ };

    ghost made_more = { λ p q r xs ys a b. pass_more _ _ _ _ xs ys a b };

    ghost same_self = { λ q. (refl, refl) };

    ghost same_on = { λ p q r first then_on. (then_on.0 ∙ first.0, then_on.1 ∙ first.1) };

    fn call(&mut self, event: &Event) -> Result<Reply, Spent> {
        self.shared.call(self.rt, &mut *self.pass, event)
    }
}
