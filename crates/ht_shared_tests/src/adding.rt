ghost use Rattle.std.specs.Prelude.{◌≡◌, IfOk};
ghost use Rattle.ht_shared.specs.Passes.{first_of};

use ht_base::Stepper;
use ht_shared::{Pass, Shared};
use std::alloc::Global;
use std::test::Fail;

// A number. A step adds to it, and answers the sum and the number of the pass.
#[derive(Drop)]
pub(crate) struct Sum {
    pub(crate) total: u64,
}

impl Stepper for Sum {
    type Event = u64;

    type Reply = (u64, u32);

    ghost use Rattle.std.specs.Prelude.{◌≡◌, ◌+◌, ◌%◌, ◌^◌, ⊤};

    ghost takes = { λ _. ⊤ };

    ghost stands = { λ _. ⊤ };

    ghost relates = { λ old event reply new. (new.total ≡ (old.total + event) % 2 ^ 64)
        × (reply.0 ≡ new.total) };

    fn step(&mut self, seat: u32, event: &u64) -> (u64, u32) {
        self.total = self.total.wrapping_add(*event);
        (self.total, seat)
    }
}

// A turn lock round this sum, and its first pass.
pub(crate) fn lock(alloc: Global, total: u64) -> Result<(Shared<Sum>, Pass<Sum>), Fail>
    ensures { IfOk result (λ lock. lock.1 ≡ first_of lock.0) }
{
    match Shared::make(alloc, Sum { total }) {
        Ok(lock) => Ok(lock),
        Err(_) => Err(Fail::new("no memory")),
    }
}
