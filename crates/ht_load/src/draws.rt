ghost use Rattle.std.specs.Prelude.{◌≡◌};
ghost use Rattle.ht_load.specs.Draws as spec;

/// Where drawing has come to. The same seed gives the same numbers.
#[derive(Clone, Copy)]
pub(crate) struct Draws {
    pub(crate) x: u64,
}

impl Draws {
    /// The next number, below 2^31.
    #[tactic(auto, unfolding(crate::specs::Draws::next))]
    pub(crate) fn draw(&mut self) -> u64
        ensures value { result ≡ spec.drawn (spec.next self.old.x) }
        ensures next { self.new.x ≡ spec.next self.old.x }
    {
        self.x = self
            .x
            .wrapping_mul(6_364_136_223_846_793_005)
            .wrapping_add(1_442_695_040_888_963_407);
        self.x >> 33
    }
}
