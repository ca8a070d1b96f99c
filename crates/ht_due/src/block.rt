ghost use Rattle.std.specs.Prelude.{◌≡◌, ◌+◌, ◌≤◌, ◌++◌, ◌∷◌, [], false, IfNone, IfOk, IfSome, length, slice_get};
ghost use Rattle.ht_due.specs.declared.block.TheConstants.{MOST};
ghost use Rattle.ht_due.specs.Dues.{Ascends, has, next_after, put_due, without};

use crate::Due;
use crate::finding::find;
use ht_base::Memory;
use std::alloc::Global;
use std::marker::Model;

/// How many dues a block has at most. It has room for one more, which goes on to the next block.
pub(crate) const MOST: usize = 128;

/// Some dues that follow one another. Each block has the same memory, so that any of them serves any dues.
/// A contract sees it as their list.
#[derive(Drop)]
pub(crate) struct Block {
    dues: Vec<Due>,
}

impl Model for Block {
    ghost use Rattle.std.specs.Prelude.{◌<◌, List, vec_capacity};
    ghost use Rattle.ht_due.specs.declared.block.TheConstants.{MOST};
    ghost use Rattle.ht_due.specs.declared.due.Due.{Due};

    ghost Value = { List Due };

    ghost view = { λ b. b.dues.items };

    ghost invariant = { λ b. MOST < vec_capacity b.dues };
}

impl Block {
    pub(crate) fn new(alloc: Global) -> Result<Block, Memory>
        ensures { IfOk result (λ b. b ≡ []) }
    {
        Ok(Block {
            dues: Vec::with_capacity(alloc, MOST + 1)?,
        })
    }

    pub(crate) fn len(&self) -> usize
        ensures { result ≡ length self.now }
    {
        self.dues.len()
    }

    pub(crate) fn first(&self) -> Option<Due>
        ensures { result ≡ slice_get self.now 0 }
    {
        self.dues.first().copied()
    }

    pub(crate) fn after(&self, due: Due) -> Option<Due>
        requires { Ascends self.now }
        ensures { result ≡ next_after due self.now }
    {
        match find(&self.dues, due) {
            Ok(place) => self.dues.get(place + 1).copied(),
            Err(place) => self.dues.get(place).copied(),
        }
    }

    /// Puts a due in its place. Where that makes too many, the last one goes.
    pub(crate) fn put(&mut self, due: Due) -> Option<Due>
        requires ascend { Ascends self.old }
        requires few { length self.old ≤ MOST }
        requires absent { has due self.old ≡ false }
        ensures none { IfNone result (self.new ≡ put_due self.old due) }
        ensures few { IfNone result
            ((length self.old ≤ length self.new) × (length self.new ≤ MOST)) }
        ensures last { IfSome result (λ last. self.new ++ last ∷ [] ≡ put_due self.old due) }
        ensures full { IfSome result (λ _. length self.new ≡ MOST) }
    {
        match find(&self.dues, due) {
            Ok(_) => unreachable!(),
            Err(place) => {
                let _ = self.dues.insert(place, due);
            }
        }
        if self.dues.len() > MOST {
            return self.dues.pop();
        }
        None
    }

    pub(crate) fn put_first(&mut self, due: Due)
        requires { length self.old ≤ MOST }
        ensures { self.new ≡ due ∷ self.old }
    {
        let _ = self.dues.insert(0, due);
    }

    /// This due alone, whatever the block had.
    pub(crate) fn start(&mut self, due: Due)
        ensures { self.new ≡ due ∷ [] }
    {
        self.dues.clear();
        self.dues.push_reserved(due);
    }

    pub(crate) fn take(&mut self, due: Due) -> bool
        requires { Ascends self.old }
        ensures dues { self.new ≡ without self.old due }
        ensures found { result ≡ has due self.old }
    {
        match find(&self.dues, due) {
            Ok(place) => {
                let _ = self.dues.remove(place);
                true
            }
            Err(_) => false,
        }
    }

    pub(crate) fn take_all(&mut self, other: &mut Block)
        requires { length self.old + length other.old ≤ MOST }
        ensures { self.new ≡ self.old ++ other.old }
    {
        let _ = self.dues.append(&mut other.dues);
    }
}
