ghost use Rattle.std.specs.Prelude.{◌≡◌, refl};
ghost use Rattle.std.proofs.Common.{◌∙◌};

use crate::{Failed, Link, Sink, Source};

/// A link of a source and a sink that are lent. It keeps both, whatever is read and written.
pub struct LentPair<'a, S: Source, K: Sink> {
    pub input: &'a mut S,
    pub output: &'a mut K,
}

impl<'a, S: Source, K: Sink> Source for LentPair<'a, S, K> {
    ghost source_state = { λ p. S.source_state p.input.now };

    ghost beside_source = { λ p. K.sink_state p.output.now };

    ghost same_source = { λ p q. (q.input.ghost_name ≡ p.input.ghost_name) × (q.output.ghost_name ≡ p.output.ghost_name) };

    fn read(&mut self, into: &mut [u8]) -> Result<usize, Failed> {
        self.input.read(into)
    }
}

impl<'a, S: Source, K: Sink> Sink for LentPair<'a, S, K> {
    ghost sink_state = { λ p. K.sink_state p.output.now };

    ghost beside_sink = { λ p. S.source_state p.input.now };

    ghost same_sink = { λ p q. (q.input.ghost_name ≡ p.input.ghost_name) × (q.output.ghost_name ≡ p.output.ghost_name) };

    fn write(&mut self, piece: &[u8]) -> Result<(), Failed> {
        self.output.write(piece)
    }
}

impl<'a, S: Source, K: Sink> Link for LentPair<'a, S, K> {
    ghost same = { λ p q. (q.input.ghost_name ≡ p.input.ghost_name) × (q.output.ghost_name ≡ p.output.ghost_name) };

    ghost reads_alone = { λ x. refl };

    ghost writes_alone = { λ x. refl };

    ghost same_self = { λ x. (refl, refl) };

    ghost read_same = { λ x y kept. kept };

    ghost write_same = { λ x y kept. kept };

    ghost same_on = { λ x y z first then_on. (then_on.0 ∙ first.0, then_on.1 ∙ first.1) };
}
