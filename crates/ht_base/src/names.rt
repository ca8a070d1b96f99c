ghost use Rattle.std.specs.Prelude.{◌≡◌, [], ◌∷◌, ◌++◌, IfOk, OnOk, OnErr};

use crate::{Memory, Name};
use std::alloc::Global;
use std::marker::Model;

/// A list of names. A contract sees it as the list of their bytes.
#[derive(Drop)]
pub struct Names {
    items: Vec<Name>,
}

impl Model for Names {
    ghost use Rattle.std.specs.Prelude.{ℕ, List};

    ghost Value = { List (List ℕ) };

    ghost view = { λ n. n.items.items };
}

impl Names {
    /// No names.
    pub fn new(alloc: Global) -> Names
        ensures { result ≡ [] }
    {
        Names {
            items: Vec::new(alloc),
        }
    }

    /// No names. It takes memory for this many.
    pub fn with_capacity(alloc: Global, count: usize) -> Result<Names, Memory>
        ensures { IfOk result (λ names. names ≡ []) }
    {
        Ok(Names {
            items: Vec::with_capacity(alloc, count)?,
        })
    }

    pub fn copy(&self, alloc: Global) -> Result<Names, Memory>
        ensures { IfOk result (λ n. n ≡ self.now) }
    {
        Ok(Names {
            items: self.items.to_vec(alloc)?,
        })
    }

    pub fn as_slice(&self) -> &[Name]
        ensures { result.now ≡ self.now }
    {
        &self.items
    }

    /// Puts a name behind the others.
    pub fn push(&mut self, name: Name) -> Result<(), Memory>
        ensures ok { OnOk result (self.new ≡ self.old ++ name ∷ []) }
        ensures err { OnErr result (self.new ≡ self.old) }
    {
        self.items.push(name)?;
        Ok(())
    }
}
