ghost use Rattle.std.specs.Prelude.{◌≡◌, refl};

use crate::{Failed, Sink, Source};

/// A connection: a source and a sink in one object. Reading leaves what was written, and writing
/// leaves what is to be read.
pub trait Link: Source + Sink {
    /// What reading and writing keep besides, of the link before them and the link behind them.
    ghost same: { Self → Self → Type 0 } = { λ _ _. Unit {0} };

    ghost reads_alone: { (x : Self) → Self.beside_source x ≡ Self.sink_state x };

    ghost writes_alone: { (x : Self) → Self.beside_sink x ≡ Self.source_state x };

    ghost same_self: { (x : Self) → Self.same x x };

    ghost read_same: { (x y : Self) → Self.same_source x y → Self.same x y };

    ghost write_same: { (x y : Self) → Self.same_sink x y → Self.same x y };

    ghost same_on: { (x y z : Self) → Self.same x y → Self.same y z → Self.same x z };
}

/// A link of a source and a sink.
#[derive(Drop)]
pub struct Pair<S: Source, K: Sink> {
    pub input: S,
    pub output: K,
}

impl<S: Source, K: Sink> Source for Pair<S, K> {
    ghost source_state = { λ p. S.source_state p.input };

    ghost beside_source = { λ p. K.sink_state p.output };

    fn read(&mut self, into: &mut [u8]) -> Result<usize, Failed> {
        self.input.read(into)
    }
}

impl<S: Source, K: Sink> Sink for Pair<S, K> {
    ghost sink_state = { λ p. K.sink_state p.output };

    ghost beside_sink = { λ p. S.source_state p.input };

    fn write(&mut self, piece: &[u8]) -> Result<(), Failed> {
        self.output.write(piece)
    }
}

impl<S: Source, K: Sink> Link for Pair<S, K> {
    ghost reads_alone = { λ x. refl };

    ghost writes_alone = { λ x. refl };

    ghost same_self = { λ x. tt };

    ghost read_same = { λ x y kept. tt };

    ghost write_same = { λ x y kept. tt };

    ghost same_on = { λ x y z first then_on. tt };
}
