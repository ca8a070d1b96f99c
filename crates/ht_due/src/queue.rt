ghost use Rattle.std.specs.Prelude.{◌≡◌, ◌+◌, ◌≤◌, [], false, length, OnOk, slice_get};
ghost use Rattle.ht_due.specs.Dues.{AreNew, Ascends, has, merged, next_after, put_due, without};

use crate::Due;
use crate::block::Block;
use crate::blocks::{after, first_of, make, put, take};
use crate::merging::{put_all, take_all};
use ht_base::Memory;
use std::alloc::Global;
use std::marker::Model;

// How many dues a queue has at most, those that it has room for among them.
const LIMIT: u64 = 1 << 32;

/// The dues in ascending order, none twice. A contract sees them as the list `dues`, and in `spare`
/// how many more the queue takes without memory.
#[derive(Drop)]
pub struct DueQueue {
    // The dues, in blocks of which no two neighbours fit in one.
    blocks: Vec<Block>,
    // Blocks for dues that come. What is in them counts for nothing.
    free: Vec<Block>,
    // How many dues there are, and how many more are sure to find a block.
    count: u64,
    room: u64,
}

impl Model for DueQueue {
    ghost use Rattle.ht_due.specs.Kept.{IsKept, queue_in};
    ghost use Rattle.ht_due.specs.Queues.{QueueOf};

    ghost Value = { QueueOf };

    ghost view = { queue_in };

    ghost invariant = { IsKept };
}

impl DueQueue {
    /// Nothing is due.
    pub fn new(alloc: Global) -> DueQueue
        ensures { result.dues ≡ [] }
    {
        DueQueue {
            blocks: Vec::new(alloc),
            free: Vec::new(alloc),
            count: 0,
            room: 0,
        }
    }

    /// The first due. None where nothing is due.
    pub fn least(&self) -> Option<Due>
        ensures first { result ≡ slice_get self.now.dues 0 }
        ensures ascend { Ascends self.now.dues }
    {
        first_of(&self.blocks, 0)
    }

    /// The first due that comes after this one, which needn't be there. None where none does.
    pub fn after(&self, due: Due) -> Option<Due>
        ensures next { result ≡ next_after due self.now.dues }
        ensures ascend { Ascends self.now.dues }
    {
        after(&self.blocks, due)
    }

    /// Makes room for at least `more` further dues. [`Memory`] also where the queue would have more than
    /// 2^32 of them.
    pub fn reserve(&mut self, more: u32) -> Result<(), Memory>
        ensures dues { self.new.dues ≡ self.old.dues }
        ensures spare { OnOk result (more ≤ self.new.spare) }
        ensures kept { self.old.spare ≤ self.new.spare }
    {
        let more = u64::from(more);
        if more <= self.room {
            return Ok(());
        }
        if self.count + more > LIMIT {
            return Err(Memory);
        }
        // Two neighbours have more than 128 dues.
        let enough = ((self.count + more) / 64 + 2) as usize;
        self.blocks.reserve(enough)?;
        self.free.reserve(enough)?;
        let blocks = self.blocks.len() + self.free.len();
        if blocks < enough {
            let alloc = *self.blocks.allocator();
            make(alloc, &mut self.free, enough - blocks)?;
        }
        self.room = more;
        Ok(())
    }

    /// Puts a due in its place. It takes no memory.
    pub fn insert(&mut self, due: Due)
        requires spare { 1 ≤ self.old.spare }
        requires absent { has due self.old.dues ≡ false }
        ensures dues { self.new.dues ≡ put_due self.old.dues due }
        ensures spare { self.new.spare + 1 ≡ self.old.spare }
    {
        put(&mut self.blocks, &mut self.free, due);
        self.count += 1;
        self.room -= 1;
    }

    /// Takes a due out, and says whether it was there. It takes no memory.
    pub fn remove(&mut self, due: Due) -> bool
        ensures dues { self.new.dues ≡ without self.old.dues due }
        ensures found { result ≡ has due self.old.dues }
        ensures spare { self.old.spare ≤ self.new.spare }
    {
        let is_there = take(&mut self.blocks, &mut self.free, due);
        if is_there {
            self.count -= 1;
        }
        is_there
    }

    /// Takes out those that are gone and puts in the new ones, each list ascending. It takes no memory.
    /// One that is gone needn't have been there, and one that is in both lists stays.
    pub fn merge(&mut self, gone: &[Due], news: &[Due])
        requires spare { length news.now ≤ self.old.spare }
        requires gone { Ascends gone.now }
        requires news { Ascends news.now }
        requires absent { AreNew news.now gone.now self.old.dues }
        ensures dues { self.new.dues ≡ merged self.old.dues gone.now news.now }
        ensures spare { self.old.spare ≤ self.new.spare + length news.now }
    {
        ascends(self);
        take_all(self, gone);
        put_all(self, news);
    }
}

// The dues of a queue are in order.
fn ascends(queue: &DueQueue)
    ensures { Ascends queue.now.dues }
{
    let _least = queue.least();
}
