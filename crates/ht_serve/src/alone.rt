ghost use Rattle.std.specs.Prelude.{◌≡◌, refl};
ghost use Rattle.std.proofs.Common.{◌∙◌};
ghost use Rattle.ht_serve.specs.Calls.{StepsMade};
ghost use Rattle.ht_serve.specs.CallLaws.{steps_none, steps_more};

use crate::{Caller, TakesEvents};
use ht_base::{Event, Reply, Spent};

/// The caller of one thread, which has the machine for itself. It is never spent, and keeps the machine
/// that it was given.
pub struct Alone<'a, T: TakesEvents> {
    pub state: &'a mut T,
}

impl<'a, T: TakesEvents> Caller for Alone<'a, T> {
    ghost made = { λ p q calls. StepsMade T.relates p.state.now q.state.now calls };

    ghost spent = { λ _. ⊥ };

    ghost stands = { λ q. T.stands q.state.now };

    ghost same = { λ p q. q.state.ghost_name ≡ p.state.ghost_name };

    ghost made_none = { λ q. steps_none _ _ };

    ghost made_more = { λ p q r xs ys a b. steps_more _ _ _ _ xs ys a b };

    ghost same_self = { λ q. refl };

    ghost same_on = { λ p q r first then_on. then_on ∙ first };

    fn call(&mut self, event: &Event) -> Result<Reply, Spent> {
        Ok(self.state.step(0, event))
    }
}
