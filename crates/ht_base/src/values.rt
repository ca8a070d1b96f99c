ghost use Rattle.std.specs.Prelude.{◌≡◌, [], ◌∷◌, ◌++◌, option_map, IfOk, OnOk, OnErr};
ghost use Rattle.ht_base.specs.Values as spec;
ghost use Rattle.ht_base.specs.Values.{Ascend, IsBehind};

use crate::{Memory, Name, Value};
use std::alloc::Global;
use std::marker::Model;

/// The values of a task's parts by their names. A contract sees it as the list of both, with
/// ascending names.
#[derive(Drop)]
pub struct Values {
    items: Vec<(Name, Value)>,
}

impl Model for Values {
    ghost use Rattle.std.specs.Prelude.{ℕ, List};
    ghost use Rattle.ht_base.specs.declared.value.Value.{Value as PartValue};
    ghost use Rattle.ht_base.specs.Values.{Ascend};

    ghost Value = { List (List ℕ × PartValue) };

    ghost view = { λ v. v.items.items };

    ghost invariant = { λ v. Ascend v.items.items };
}

impl Values {
    /// No values.
    pub fn new(alloc: Global) -> Values
        ensures { result ≡ [] }
    {
        Values {
            items: Vec::new(alloc),
        }
    }

    pub fn copy(&self, alloc: Global) -> Result<Values, Memory>
        ensures { IfOk result (λ v. v ≡ self.now) }
    {
        let mut items = Vec::with_capacity(alloc, self.items.len())?;
        for (name, value) in &self.items {
            items.push((*name, value.copy(alloc)?))?;
        }
        Ok(Values { items })
    }

    pub fn as_slice(&self) -> &[(Name, Value)]
        ensures value { result.now ≡ self.now }
        ensures ascend { Ascend self.now }
    {
        &self.items
    }

    /// Puts a value behind the others, whose names are all before its name.
    pub fn push(&mut self, name: Name, value: Value) -> Result<(), Memory>
        requires { IsBehind name self.old }
        ensures ok { OnOk result (self.new ≡ self.old ++ (name, value) ∷ []) }
        ensures err { OnErr result (self.new ≡ self.old) }
    {
        self.items.push((name, value))?;
        Ok(())
    }

    /// The value of this name.
    pub fn value_of(&self, name: &Name) -> Option<&Value>
        ensures { option_map (λ v. v.now) result ≡ spec.value_of name.now self.now }
    {
        for (other, value) in &self.items {
            if other == name {
                return Some(value);
            }
        }
        None
    }

    /// Puts a value in the place of its name, where there may be one that it replaces.
    pub fn put(&mut self, name: Name, value: Value) -> Result<(), Memory>
        ensures ok { OnOk result (self.new ≡ spec.put name value self.old) }
        ensures err { OnErr result (self.new ≡ self.old) }
    {
        let place = rank(&self.items, &name);
        if stands_at(&self.items, place, &name) {
            self.items[place] = (name, value);
        } else {
            self.items.insert(place, (name, value))?;
        }
        Ok(())
    }

    /// These values, of which the given ones replace those of their names.
    pub fn updated(self, given: Values) -> Result<Values, Memory>
        ensures { IfOk result (λ v. v ≡ spec.updated self given) }
    {
        let mut values = self;
        for (name, value) in given.items {
            values.put(name, value)?;
        }
        Ok(values)
    }
}

// How many of the values have a name before this one.
fn rank(items: &[(Name, Value)], name: &Name) -> usize
    ensures { result ≡ spec.rank name.now items.now }
{
    let mut rank = 0;
    for (other, _) in items {
        if other >= name {
            break;
        }
        rank += 1;
    }
    rank
}

fn stands_at(items: &[(Name, Value)], place: usize, name: &Name) -> bool
    ensures { result ≡ spec.stands_at name.now place items.now }
{
    match items.get(place) {
        Some((other, _)) => other == name,
        None => false,
    }
}
