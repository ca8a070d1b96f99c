ghost use Rattle.std.specs.Prelude.{ℕ, ◌≡◌, [], fold, OnErr, OnOk};
ghost use Rattle.ht_index.specs.Indexes.{Ascends, list_of, moved};

use crate::set_moves::{make_all, reserve_all};
use crate::{Move, Tasks};
use ht_base::Memory;
use std::alloc::Global;
use std::marker::Model;

/// The tasks that stand under each key, as a set of each key. A contract sees the lists of them, ascending
/// by number, and in `moves` those that are prepared: they are made without memory.
#[derive(Drop)]
pub struct TaskSets {
    sets: Vec<Tasks>,
    // That of each key behind the last of them.
    none: Tasks,
    moves: Vec<Move>,
}

impl Model for TaskSets {
    ghost use Rattle.ht_index.specs.Indexes.{IndexOf};

    ghost Value = { IndexOf };

    ghost use Rattle.ht_index.specs.KeptTaskSets.{AreReady, sets_in};

    ghost view = { sets_in };

    ghost invariant = { AreReady };
}

impl TaskSets {
    /// No task stands anywhere.
    pub fn new(alloc: Global) -> TaskSets
        ensures lists { (key : ℕ) → list_of key result ≡ [] }
        ensures moves { result.moves ≡ [] }
    {
        TaskSets {
            sets: Vec::new(alloc),
            none: Tasks::new(alloc),
            moves: Vec::new(alloc),
        }
    }

    /// The tasks that stand under a key.
    #[inline(always)]
    pub fn tasks(&self, key: u32) -> &Tasks
        ensures value { result.now.tasks ≡ list_of key self.now }
        ensures ascends { Ascends result.now.tasks }
    {
        let tasks = match self.sets.get(key as usize) {
            Some(tasks) => tasks,
            None => &self.none,
        };
        tasks.ascend();
        tasks
    }

    /// No moves are prepared any more. Their room stays.
    pub fn forget(&mut self)
        ensures lists { (key : ℕ) → list_of key self.new ≡ list_of key self.old }
        ensures moves { self.new.moves ≡ [] }
    {
        self.moves.clear();
    }

    /// Makes room for these moves, in the place of those that were prepared before. Where it is refused
    /// none are prepared.
    pub fn prepare(&mut self, moves: Vec<Move>) -> Result<(), Memory>
        ensures lists { (key : ℕ) → list_of key self.new ≡ list_of key self.old }
        ensures moves { OnOk result (self.new.moves ≡ moves.items) }
        ensures refused { OnErr result (self.new.moves ≡ []) }
    {
        self.forget();
        reserve_all(&mut self.sets, &moves)?;
        self.moves = moves;
        Ok(())
    }

    /// Makes the moves that were prepared, one after another. It takes no memory.
    pub fn make_moves(&mut self)
        ensures lists { (key : ℕ) → list_of key self.new
            ≡ fold (moved key) (list_of key self.old) self.old.moves }
        ensures moves { self.new.moves ≡ [] }
    {
        make_all(&mut self.sets, &self.moves);
        self.moves.clear();
    }
}
