/// Places, counted from 0, of which each leads to some.
pub trait Graph {
    ghost use Rattle.std.specs.Prelude.{◌≡◌, ℕ, List};

    /// How many places there are.
    ghost count: { Self → ℕ };

    /// The places to which one step leads.
    ghost next: { Self → ℕ → List ℕ };

    fn count(&self) -> usize
        ensures { result ≡ count self.now };

    fn next(&self, place: usize) -> &[usize]
        ensures { result.now ≡ next self.now place };
}
