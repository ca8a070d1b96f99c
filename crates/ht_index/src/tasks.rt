ghost use Rattle.std.specs.Prelude.{◌≡◌, ◌+◌, ◌*◌, ◌^◌, ◌<◌, ◌≤◌, [], OnOk};
ghost use Rattle.ht_index.specs.Indexes.{Ascends, with_task, without_task};
ghost use Rattle.ht_index.specs.Indexes as spec;

use crate::Rest;
use crate::words::{clear, grow, is_set, set, word};
use ht_base::{Memory, TaskId};
use std::alloc::Global;
use std::marker::Model;

/// A set of tasks, seen as the list of them, ascending by number. A contract also sees in `reach` below
/// which number it has room for each task: these it takes without memory.
#[derive(Drop)]
pub struct Tasks {
    // Task n is bit n % 64 of word n / 64.
    words: Vec<u64>,
    // Bit w tells that word w isn't 0.
    full: Vec<u64>,
}

impl Model for Tasks {
    ghost use Rattle.ht_index.specs.Sets.{TasksOf};

    ghost Value = { TasksOf };

    ghost use Rattle.ht_index.specs.KeptSets.{AreMarked, set_in};

    ghost view = { set_in };

    ghost invariant = { AreMarked };
}

impl Tasks {
    /// No tasks.
    pub fn new(alloc: Global) -> Tasks
        ensures { result ≡ record { tasks = []; reach = 0 } }
    {
        Tasks {
            words: Vec::new(alloc),
            full: Vec::new(alloc),
        }
    }

    /// The task is one of them.
    #[inline(always)]
    pub fn has(&self, task: TaskId) -> bool
        ensures { result ≡ spec.has task.0 self.now.tasks }
    {
        is_set(&self.words, task.0)
    }

    /// They ascend by number, and none is there twice.
    #[inline(always)]
    pub fn ascend(&self)
        ensures { Ascends self.now.tasks }
    {
        let _ = &self.words;
    }

    /// Makes room for a task. The room for others stays.
    #[inline(always)]
    pub fn reserve(&mut self, task: TaskId) -> Result<(), Memory>
        ensures tasks { self.new.tasks ≡ self.old.tasks }
        ensures kept { self.old.reach ≤ self.new.reach }
        ensures room { OnOk result (task.0 < self.new.reach) }
    {
        let place = (task.0 / 64) as usize;
        if place >= self.words.len() {
            self.grow(place)?;
        }
        Ok(())
    }

    /// Puts a task there, if it isn't there. It takes no memory.
    #[inline(always)]
    pub fn put(&mut self, task: TaskId)
        requires { task.0 < self.old.reach }
        ensures tasks { self.new.tasks ≡ with_task task self.old.tasks }
        ensures room { self.new.reach ≡ self.old.reach }
    {
        set(&mut self.words, task.0);
        set(&mut self.full, task.0 / 64);
    }

    /// Takes a task out, if it is there. It takes no memory.
    #[inline(always)]
    pub fn remove(&mut self, task: TaskId)
        ensures tasks { self.new.tasks ≡ without_task task self.old.tasks }
        ensures room { self.new.reach ≡ self.old.reach }
    {
        clear(&mut self.words, task.0);
        if word(&self.words, task.0 / 64) == 0 {
            clear(&mut self.full, task.0 / 64);
        }
    }

    /// A cursor over all of them.
    #[inline(always)]
    pub fn rest(&self) -> Rest<'_>
        ensures tasks { result ≡ self.now.tasks }
        ensures ascends { Ascends result }
    {
        Rest::over(&self.words, &self.full)
    }

    // Makes words up to a place.
    #[inline(never)]
    fn grow(&mut self, place: usize) -> Result<(), Memory>
        requires { place < 2 ^ 26 }
        ensures tasks { self.new.tasks ≡ self.old.tasks }
        ensures kept { self.old.reach ≤ self.new.reach }
        ensures room { OnOk result (64 * place + 64 ≤ self.new.reach) }
    {
        grow(&mut self.full, place / 64 + 1)?;
        grow(&mut self.words, place + 1)
    }
}
