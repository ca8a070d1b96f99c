ghost use Rattle.std.specs.Prelude.{ℕ, ◌≡◌, [], fold, OnErr, OnOk};
ghost use Rattle.ht_index.specs.Indexes.{Ascends, list_of, moved};

use crate::Move;
use crate::asking::{ask_all, give_all_back};
use crate::listed::Listed;
use crate::moving::move_all;
use ht_base::{Memory, TaskId};
use std::alloc::Global;
use std::marker::Model;

/// The tasks that stand under each key, ascending by number. A contract also sees in `moves` those that
/// are prepared: they are made without memory.
#[derive(Drop)]
pub struct Index {
    // Behind the last there are no tasks.
    lists: Vec<Listed>,
    moves: Vec<Move>,
}

impl Model for Index {
    ghost use Rattle.ht_index.specs.Kept.{HasRoom, index_in};
    ghost use Rattle.ht_index.specs.Indexes.{IndexOf};

    ghost Value = { IndexOf };

    ghost view = { index_in };

    ghost invariant = { HasRoom };
}

impl Index {
    /// No task stands anywhere.
    pub fn new(alloc: Global) -> Index
        ensures lists { (key : ℕ) → list_of key result ≡ [] }
        ensures moves { result.moves ≡ [] }
    {
        Index {
            lists: Vec::new(alloc),
            moves: Vec::new(alloc),
        }
    }

    /// The tasks that stand under a key.
    pub fn list(&self, key: u32) -> &[TaskId]
        ensures value { result.now ≡ list_of key self.now }
        ensures ascends { Ascends result.now }
    {
        match self.lists.get(key as usize) {
            Some(list) => list.as_slice(),
            None => &[],
        }
    }

    /// No moves are prepared any more, and their room is free.
    pub fn forget(&mut self)
        ensures lists { (key : ℕ) → list_of key self.new ≡ list_of key self.old }
        ensures moves { self.new.moves ≡ [] }
    {
        give_all_back(&mut self.lists, &self.moves);
        self.moves.clear();
    }

    /// Makes room for these moves, in the place of those that were prepared before. Where it is refused
    /// none are prepared.
    pub fn prepare(&mut self, moves: Vec<Move>) -> Result<(), Memory>
        ensures lists { (key : ℕ) → list_of key self.new ≡ list_of key self.old }
        ensures moves { OnOk result (self.new.moves ≡ moves.items) }
        ensures refused { OnErr result (self.new.moves ≡ []) }
    {
        self.forget();
        ask_all(&mut self.lists, &moves)?;
        self.moves = moves;
        Ok(())
    }

    /// Makes the moves that were prepared, one after another. It takes no memory.
    pub fn make_moves(&mut self)
        ensures lists { (key : ℕ) → list_of key self.new
            ≡ fold (moved key) (list_of key self.old) self.old.moves }
        ensures moves { self.new.moves ≡ [] }
    {
        move_all(&mut self.lists, &self.moves);
        self.moves.clear();
    }
}
