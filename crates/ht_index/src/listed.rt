ghost use Rattle.std.specs.Prelude.{◌≡◌, ◌+◌, ◌≤◌, [], OnErr, OnOk};
ghost use Rattle.ht_index.specs.Indexes.{Ascends, with_task, without_task};

use crate::finding::{put_in, take_out};
use ht_base::{Memory, TaskId};
use std::alloc::Global;
use std::marker::Model;

/// Tasks ascending by number. A contract also sees in `spare` for how many more room was asked: these it
/// takes without memory.
#[derive(Drop)]
pub(crate) struct Listed {
    tasks: Vec<TaskId>,
    room: u32,
}

impl Model for Listed {
    ghost use Rattle.ht_index.specs.Listed.{IsRoomy, ListedOf, listed_in};

    ghost Value = { ListedOf };

    ghost view = { listed_in };

    ghost invariant = { IsRoomy };
}

impl Listed {
    pub(crate) fn new(alloc: Global) -> Listed
        ensures { result ≡ record { tasks = []; spare = 0 } }
    {
        Listed {
            tasks: Vec::new(alloc),
            room: 0,
        }
    }

    pub(crate) fn as_slice(&self) -> &[TaskId]
        ensures value { result.now ≡ self.now.tasks }
        ensures ascends { Ascends result.now }
    {
        &self.tasks
    }

    /// Asks for room for one more.
    #[inline(always)]
    pub(crate) fn ask(&mut self) -> Result<(), Memory>
        ensures tasks { self.new.tasks ≡ self.old.tasks }
        ensures kept { self.old.spare ≤ self.new.spare }
        ensures more { OnOk result (self.new.spare ≡ self.old.spare + 1) }
    {
        if self.room == u32::MAX {
            return Err(Memory);
        }
        self.tasks.reserve(self.room as usize + 1)?;
        self.room += 1;
        Ok(())
    }

    /// Gives the room for one back.
    pub(crate) fn give_back(&mut self)
        requires { 1 ≤ self.old.spare }
        ensures tasks { self.new.tasks ≡ self.old.tasks }
        ensures spare { self.new.spare + 1 ≡ self.old.spare }
    {
        self.room -= 1;
    }

    /// Puts a task in its place, if it isn't there. It takes no memory.
    #[inline(always)]
    pub(crate) fn put(&mut self, task: TaskId)
        requires { 1 ≤ self.old.spare }
        ensures tasks { self.new.tasks ≡ with_task task self.old.tasks }
        ensures spare { self.new.spare + 1 ≡ self.old.spare }
    {
        put_in(&mut self.tasks, task);
        self.room -= 1;
    }

    /// Takes a task out, if it is there. It takes no memory.
    pub(crate) fn remove(&mut self, task: TaskId)
        ensures tasks { self.new.tasks ≡ without_task task self.old.tasks }
        ensures spare { self.new.spare ≡ self.old.spare }
    {
        take_out(&mut self.tasks, task);
    }
}
