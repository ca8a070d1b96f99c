ghost use Rattle.std.specs.Prelude.{◌≡◌, IfOk};

use crate::{Memory, Txt};
use std::alloc::Global;

/// A value as a request gives it: a text also stands for a person, and a whole number for an instant.
#[derive(Drop)]
pub enum Scalar {
    Text(Txt),
    Int(i64),
    Truth(bool),
}

impl Scalar {
    pub fn copy(&self, alloc: Global) -> Result<Scalar, Memory>
        ensures { IfOk result (λ s. s ≡ self.now) }
    {
        match self {
            Scalar::Text(text) => Ok(Scalar::Text(text.copy(alloc)?)),
            Scalar::Int(number) => Ok(Scalar::Int(*number)),
            Scalar::Truth(truth) => Ok(Scalar::Truth(*truth)),
        }
    }
}
