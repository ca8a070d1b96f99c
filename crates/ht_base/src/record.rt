ghost use Rattle.std.specs.Prelude.{◌≡◌, IfOk};
ghost use Rattle.ht_base.specs.Records.{record_of};

use crate::{Bytes, Command, Memory, Moment, Name, Retry, TaskId};
use std::alloc::Global;

/// What is kept: of the office that is opened, and of each event that changed its tables.
#[derive(Drop)]
pub enum Record {
    /// The office has these texts: of its models and of its people.
    Opening {
        models: Bytes,
        people: Bytes,
    },
    /// Timed actions were taken that were due by this moment.
    Turn {
        at: Moment,
    },
    /// An accepted command, at the moment at which it acted. `task` is 0 exactly for a create.
    Asked {
        at: Moment,
        caller: Name,
        retry: Option<Retry>,
        task: TaskId,
        command: Command,
    },
}

impl Record {
    pub fn copy(&self, alloc: Global) -> Result<Record, Memory>
        ensures { IfOk result (λ r. record_of r ≡ record_of self.now) }
    {
        match self {
            Record::Opening { models, people } => Ok(Record::Opening {
                models: models.copy(alloc)?,
                people: people.copy(alloc)?,
            }),
            Record::Turn { at } => Ok(Record::Turn { at: *at }),
            Record::Asked {
                at,
                caller,
                retry,
                task,
                command,
            } => Ok(Record::Asked {
                at: *at,
                caller: *caller,
                retry: *retry,
                task: *task,
                command: command.copy(alloc)?,
            }),
        }
    }
}
