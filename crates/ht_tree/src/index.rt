ghost use Rattle.std.specs.Prelude.{◌≡◌, ◌++◌, ◌∷◌, ◌<◌, ◌^◌, [], IfSome, MatchOption, OnOk, OnErr};
ghost use Rattle.ht_tree.specs.Places.{last_place};

use ht_base::{Memory, TaskId};
use std::alloc::Global;
use std::collections::BTreeMap;
use std::marker::Model;

/// A task that is put, and the place at which it was put before.
#[derive(Clone, Copy)]
struct Put {
    task: u32,
    before: Option<usize>,
}

/// Tasks that are put one after another. The last place of one is found in a logarithm of their number.
#[derive(Drop)]
pub(crate) struct Index {
    puts: Vec<Put>,
    // Of each task its last place.
    last: BTreeMap<u32, usize>,
}

impl Model for Index {
    ghost use Rattle.std.specs.Prelude.{List, ℕ};

    ghost Value = { List ℕ };

    ghost use Rattle.ht_tree.specs.KeptIndex.{IsIndexed, tasks_kept};

    ghost view = { tasks_kept };

    ghost invariant = { IsIndexed };
}

impl Index {
    pub(crate) fn new(alloc: Global) -> Index
        ensures { result ≡ [] }
    {
        Index {
            puts: Vec::new(alloc),
            last: BTreeMap::new(alloc),
        }
    }

    /// The last place of a task.
    pub(crate) fn place(&self, task: TaskId) -> Option<usize>
        ensures value { result ≡ last_place task.0 self.now }
        ensures small { IfSome result (λ p. p < 2 ^ 63) }
    {
        self.last.get(&task.0).copied()
    }

    pub(crate) fn push(&mut self, task: TaskId) -> Result<(), Memory>
        ensures ok { OnOk result (self.new ≡ self.old ++ task.0 ∷ []) }
        ensures err { OnErr result (self.new ≡ self.old) }
    {
        self.puts.reserve(1)?;
        let before = self.last.insert(task.0, self.puts.len())?;
        let task = task.0;
        self.puts.push_reserved(Put { task, before });
        Ok(())
    }

    /// Takes the last one. It takes no memory.
    pub(crate) fn pop(&mut self) -> Option<TaskId>
        ensures { MatchOption result ((self.old ≡ []) × (self.new ≡ []))
            (λ task. self.old ≡ self.new ++ task.0 ∷ []) }
    {
        let Put { task, before } = self.puts.pop()?;
        match before {
            Some(place) => {
                let _ = self.last.insert(task, place);
            }
            None => {
                let _ = self.last.remove(&task);
            }
        }
        Some(TaskId(task))
    }
}
