ghost use Rattle.std.specs.Prelude.{◌≡◌, ◌≤◌, [], false, IfOk, OnErr, OnOk, length};
ghost use Rattle.std.specs.List.{insert};
ghost use Rattle.ht_base.specs.Persons.{Ascends, has};
ghost use Rattle.ht_tree.specs.Passed.{taken_with, with_place};

use ht_base::Memory;
use std::alloc::Global;
use std::marker::Model;

/// The places in the model of the deadlines that were taken. A contract sees it as their list.
#[derive(Drop)]
pub struct Taken {
    items: Vec<u32>,
}

impl Model for Taken {
    ghost use Rattle.std.specs.Prelude.{ℕ, List};

    ghost Value = { List ℕ };

    ghost view = { λ t. t.items.items };
}

impl Taken {
    /// None is taken.
    pub fn new(alloc: Global) -> Taken
        ensures { result ≡ [] }
    {
        Taken {
            items: Vec::new(alloc),
        }
    }

    pub fn copy(&self, alloc: Global) -> Result<Taken, Memory>
        ensures { IfOk result (λ t. t ≡ self.now) }
    {
        Ok(Taken {
            items: self.items.to_vec(alloc)?,
        })
    }

    /// Whether the deadline at this place of the model was taken.
    pub fn contains(&self, place: u32) -> bool
        ensures { result ≡ has place self.now }
    {
        self.items.contains(&place)
    }

    /// Takes the deadline at a place, which isn't taken yet.
    pub fn put(&mut self, place: u32) -> Result<(), Memory>
        requires ascend { Ascends self.old }
        requires absent { has place self.old ≡ false }
        ensures ok { OnOk result (self.new ≡ taken_with place self.old) }
        ensures err { OnErr result (self.new ≡ self.old) }
    {
        self.items.reserve(1)?;
        let at = lower(&self.items, place);
        let _ = self.items.insert(at, place);
        Ok(())
    }
}

// How many places come before this one.
fn lower(places: &[u32], place: u32) -> usize
    ensures within { result ≤ length places.now }
    ensures put { insert places.now result place ≡ with_place places.now place }
{
    for (at, other) in places.iter().enumerate() {
        if *other >= place {
            return at;
        }
    }
    places.len()
}
