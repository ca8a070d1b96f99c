ghost use Rattle.std.specs.Prelude.{◌≡◌, [], ◌∷◌, ◌++◌, IfOk, OnOk, OnErr};

use crate::{Memory, Value};
use std::alloc::Global;
use std::marker::Model;

/// A list of values. A contract sees it as their list.
#[derive(Drop)]
pub struct ValueList {
    items: Vec<Value>,
}

impl Model for ValueList {
    ghost use Rattle.std.specs.Prelude.{List};
    ghost use Rattle.ht_base.specs.declared.value.Value.{Value as PartValue};

    ghost Value = { List PartValue };

    ghost view = { λ v. v.items.items };
}

impl ValueList {
    /// No values.
    pub fn new(alloc: Global) -> ValueList
        ensures { result ≡ [] }
    {
        ValueList {
            items: Vec::new(alloc),
        }
    }

    pub fn copy(&self, alloc: Global) -> Result<ValueList, Memory>
        ensures { IfOk result (λ v. v ≡ self.now) }
    {
        let mut items = Vec::with_capacity(alloc, self.items.len())?;
        for value in &self.items {
            items.push(value.copy(alloc)?)?;
        }
        Ok(ValueList { items })
    }

    pub fn as_slice(&self) -> &[Value]
        ensures { result.now ≡ self.now }
    {
        &self.items
    }

    /// Puts a value behind the others.
    pub fn push(&mut self, value: Value) -> Result<(), Memory>
        ensures ok { OnOk result (self.new ≡ self.old ++ value ∷ []) }
        ensures err { OnErr result (self.new ≡ self.old) }
    {
        self.items.push(value)?;
        Ok(())
    }
}
