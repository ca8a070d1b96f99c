ghost use Rattle.std.specs.Prelude.{◌≡◌, ◌+◌, ◌-◌, ◌≤◌, [], ◌++◌, length, vec_capacity, vec_len, IsOk, IfOk, OnOk, OnErr};

use crate::Memory;
use std::alloc::Global;
use std::marker::Model;
use std::mem;

/// A list of bytes. A contract sees its `items`, and in `spare` how many more it takes without
/// memory.
#[derive(Drop)]
pub struct Bytes {
    items: Vec<u8>,
}

impl Model for Bytes {
    ghost use Rattle.std.specs.Prelude.{◌-◌, vec_capacity, vec_len};
    ghost use Rattle.ht_base.specs.Bytes.{BytesOf};

    ghost Value = { BytesOf };

    ghost view = { λ b. record { items = b.items.items; spare = vec_capacity b.items - vec_len b.items } };
}

impl Bytes {
    /// No bytes.
    pub fn new(alloc: Global) -> Bytes
        ensures { result.items ≡ [] }
    {
        Bytes {
            items: Vec::new(alloc),
        }
    }

    /// A copy of these bytes.
    pub fn of(alloc: Global, bytes: &[u8]) -> Result<Bytes, Memory>
        ensures { IfOk result (λ b. b.items ≡ bytes.now) }
    {
        Ok(Bytes {
            items: Vec::from_slice(alloc, bytes)?,
        })
    }

    pub fn copy(&self, alloc: Global) -> Result<Bytes, Memory>
        ensures { IfOk result (λ b. b.items ≡ self.now.items) }
    {
        Bytes::of(alloc, &self.items)
    }

    pub fn as_slice(&self) -> &[u8]
        ensures { result.now ≡ self.now.items }
    {
        &self.items
    }

    /// Makes room for at least `more` bytes behind those that are there.
    pub fn reserve(&mut self, more: u32) -> Result<(), Memory>
        ensures items { self.new.items ≡ self.old.items }
        ensures spare { OnOk result (more ≤ self.new.spare) }
        ensures kept { self.old.spare ≤ self.new.spare }
    {
        self.items.reserve(more as usize)?;
        Ok(())
    }

    /// Puts these bytes behind those that are there. It takes no memory where `spare` suffices.
    pub fn extend(&mut self, bytes: &[u8]) -> Result<(), Memory>
        ensures ok { OnOk result (self.new.items ≡ self.old.items ++ bytes.now) }
        ensures err { OnErr result (self.new.items ≡ self.old.items) }
        ensures room { length bytes.now ≤ self.old.spare → IsOk result }
        ensures kept { self.old.spare + length self.old.items
            ≤ self.new.spare + length self.new.items }
    {
        self.items.extend_from_slice(bytes)?;
        Ok(())
    }

    /// Takes all bytes out. Their room stays.
    pub fn clear(&mut self)
        ensures items { self.new.items ≡ [] }
        ensures spare { self.old.spare + length self.old.items ≤ self.new.spare }
    {
        self.items.clear();
    }

    /// Lends its vector, with all that it holds.
    pub fn lend(&mut self, alloc: Global) -> Vec<u8>
        ensures items { result.items ≡ self.old.items }
        ensures spare { vec_capacity result - vec_len result ≡ self.old.spare }
        ensures left { self.new.items ≡ [] }
    {
        mem::replace(&mut self.items, Vec::new(alloc))
    }

    /// Takes a vector in the place of its own.
    pub fn give_back(&mut self, items: Vec<u8>)
        ensures items { self.new.items ≡ items.items }
        ensures spare { self.new.spare ≡ vec_capacity items - vec_len items }
    {
        self.items = items;
    }
}
