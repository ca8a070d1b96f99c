ghost use Rattle.std.specs.Prelude.{◌≡◌, [], ◌∷◌, ◌++◌, IfOk, OnOk, OnErr};
ghost use Rattle.ht_base.specs.Persons.{AllBelow, Ascends, has};

use crate::{Memory, Person};
use std::alloc::Global;
use std::marker::Model;

/// A set of persons. A contract sees it as the list of their places, in ascending order without
/// repeats.
#[derive(Drop)]
pub struct Persons {
    items: Vec<Person>,
}

impl Model for Persons {
    ghost use Rattle.std.specs.Prelude.{ℕ, List};
    ghost use Rattle.ht_base.specs.Persons.{Ascends};

    ghost Value = { List ℕ };

    ghost view = { λ p. p.items.items };

    ghost invariant = { λ p. Ascends p.items.items };
}

impl Persons {
    /// Nobody.
    pub fn new(alloc: Global) -> Persons
        ensures { result ≡ [] }
    {
        Persons {
            items: Vec::new(alloc),
        }
    }

    /// Nobody. It takes memory for this many.
    pub fn with_capacity(alloc: Global, count: usize) -> Result<Persons, Memory>
        ensures { IfOk result (λ persons. persons ≡ []) }
    {
        Ok(Persons {
            items: Vec::with_capacity(alloc, count)?,
        })
    }

    /// One person.
    pub fn alone(alloc: Global, person: Person) -> Result<Persons, Memory>
        ensures { IfOk result (λ persons. persons ≡ person ∷ []) }
    {
        let mut persons = Persons::with_capacity(alloc, 1)?;
        persons.push(person)?;
        Ok(persons)
    }

    pub fn copy(&self, alloc: Global) -> Result<Persons, Memory>
        ensures { IfOk result (λ p. p ≡ self.now) }
    {
        Ok(Persons {
            items: self.items.to_vec(alloc)?,
        })
    }

    pub fn as_slice(&self) -> &[Person]
        ensures value { result.now ≡ self.now }
        ensures ascends { Ascends self.now }
    {
        &self.items
    }

    /// Whether the person is one of them.
    pub fn contains(&self, person: Person) -> bool
        ensures { result ≡ has person self.now }
    {
        self.items.binary_search(&person).is_ok()
    }

    /// Puts a person behind the others, whose places are all lower.
    pub fn push(&mut self, person: Person) -> Result<(), Memory>
        requires { AllBelow person self.old }
        ensures ok { OnOk result (self.new ≡ self.old ++ person ∷ []) }
        ensures err { OnErr result (self.new ≡ self.old) }
        ensures ascends { Ascends self.new }
    {
        self.items.push(person)?;
        Ok(())
    }
}
