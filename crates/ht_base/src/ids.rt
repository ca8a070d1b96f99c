ghost use Rattle.std.specs.Prelude.{◌≡◌, IfOk};

use crate::{Memory, TaskId};
use std::alloc::Global;
use std::marker::Model;

/// A list of tasks. A contract sees it as the list of their numbers.
#[derive(Drop)]
pub struct Ids {
    items: Vec<TaskId>,
}

impl Model for Ids {
    ghost use Rattle.std.specs.Prelude.{List};
    ghost use Rattle.ht_base.specs.declared.task_id.TaskId.{TaskId as Number};

    ghost Value = { List Number };

    ghost view = { λ i. i.items.items };
}

impl Ids {
    /// These tasks.
    pub fn of(items: Vec<TaskId>) -> Ids
        ensures { result ≡ items.items }
    {
        Ids { items }
    }

    pub fn copy(&self, alloc: Global) -> Result<Ids, Memory>
        ensures { IfOk result (λ i. i ≡ self.now) }
    {
        Ok(Ids {
            items: self.items.to_vec(alloc)?,
        })
    }

    pub fn as_slice(&self) -> &[TaskId]
        ensures { result.now ≡ self.now }
    {
        &self.items
    }
}
