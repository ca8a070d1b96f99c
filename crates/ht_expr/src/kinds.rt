ghost use Rattle.std.specs.Prelude.{◌≡◌, [], ◌∷◌, ◌++◌, IfOk, OnOk, OnErr};
ghost use Rattle.ht_expr.specs.Kinds.{declared_kind, same_side};

use ht_base::{Kind, Memory, Name};
use std::alloc::Global;
use std::marker::Model;

/// On which side of a task a part stands.
#[derive(Clone, Copy, Debug, PartialEq, Eq)]
pub enum Side {
    Input,
    Output,
}

impl Side {
    pub(crate) fn is(self, other: Side) -> bool
        ensures { result ≡ same_side self other }
    {
        match self {
            Side::Input => match other {
                Side::Input => true,
                Side::Output => false,
            },
            Side::Output => match other {
                Side::Input => false,
                Side::Output => true,
            },
        }
    }
}

/// The declared parts of a task, each with its side, its name and the kind of its values. A contract
/// sees them as the list of these. Of several declarations of one part the first counts.
#[derive(Drop)]
pub struct Kinds {
    parts: Vec<(Side, Name, Kind)>,
}

impl Model for Kinds {
    ghost use Rattle.ht_expr.specs.Kinds.{Declared};

    ghost Value = { Declared };

    ghost view = { λ k. k.parts.items };
}

impl Kinds {
    /// No parts.
    pub fn new(alloc: Global) -> Kinds
        ensures { result ≡ [] }
    {
        Kinds {
            parts: Vec::new(alloc),
        }
    }

    pub fn as_slice(&self) -> &[(Side, Name, Kind)]
        ensures { result.now ≡ self.now }
    {
        &self.parts
    }

    /// Puts a part behind the others.
    pub fn push(&mut self, side: Side, name: Name, kind: Kind) -> Result<(), Memory>
        ensures ok { OnOk result (self.new ≡ self.old ++ (side, name, kind) ∷ []) }
        ensures err { OnErr result (self.new ≡ self.old) }
    {
        self.parts.push((side, name, kind))?;
        Ok(())
    }

    pub fn copy(&self, alloc: Global) -> Result<Kinds, Memory>
        ensures { IfOk result (λ k. k ≡ self.now) }
    {
        Ok(Kinds {
            parts: self.parts.to_vec(alloc)?,
        })
    }

    /// The kind of a part, if it is declared.
    pub fn kind(&self, side: Side, name: &[u8]) -> Option<Kind>
        ensures { result ≡ declared_kind self.now side name.now }
    {
        for (declared, part, kind) in &self.parts {
            if declared.is(side) && part.as_bytes() == name {
                return Some(*kind);
            }
        }
        None
    }
}
