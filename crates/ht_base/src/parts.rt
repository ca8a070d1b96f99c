ghost use Rattle.std.specs.Prelude.{◌≡◌, [], ◌∷◌, ◌++◌, IfOk, OnOk, OnErr};
ghost use Rattle.ht_base.specs.Values.{Ascend, IsBehind};

use crate::{Memory, Name, Scalar};
use std::alloc::Global;
use std::marker::Model;

/// What a request gives for a task's parts, by their names. A contract sees it as the list of both,
/// with ascending names.
#[derive(Drop)]
pub struct Parts {
    items: Vec<(Name, Scalar)>,
}

impl Model for Parts {
    ghost use Rattle.std.specs.Prelude.{ℕ, List};
    ghost use Rattle.ht_base.specs.declared.scalar.Scalar.{Scalar as PartScalar};
    ghost use Rattle.ht_base.specs.Values.{Ascend};

    ghost Value = { List (List ℕ × PartScalar) };

    ghost view = { λ p. p.items.items };

    ghost invariant = { λ p. Ascend p.items.items };
}

impl Parts {
    /// No parts.
    pub fn new(alloc: Global) -> Parts
        ensures { result ≡ [] }
    {
        Parts {
            items: Vec::new(alloc),
        }
    }

    pub fn copy(&self, alloc: Global) -> Result<Parts, Memory>
        ensures { IfOk result (λ p. p ≡ self.now) }
    {
        let mut items = Vec::with_capacity(alloc, self.items.len())?;
        for (name, scalar) in &self.items {
            items.push((*name, scalar.copy(alloc)?))?;
        }
        Ok(Parts { items })
    }

    pub fn as_slice(&self) -> &[(Name, Scalar)]
        ensures value { result.now ≡ self.now }
        ensures ascend { Ascend self.now }
    {
        &self.items
    }

    /// Puts a part behind the others, whose names are all before its name.
    pub fn push(&mut self, name: Name, scalar: Scalar) -> Result<(), Memory>
        requires { IsBehind name self.old }
        ensures ok { OnOk result (self.new ≡ self.old ++ (name, scalar) ∷ []) }
        ensures err { OnErr result (self.new ≡ self.old) }
    {
        self.items.push((name, scalar))?;
        Ok(())
    }
}
