ghost use Rattle.std.specs.Prelude.{◌≡◌, IfOk};
ghost use Rattle.ht_tree.specs.Places.{emptied};

use crate::{Comments, Taken};
use ht_base::{MIDDLE_PRIORITY, Memory, Moment, Name, Person, Persons, State, TaskId, Values};
use std::alloc::Global;

/// All that is known of a task (WS-HumanTask 1.1, 4.10): persons by their places in the directory,
/// and the model by its place in the models text.
#[derive(Drop)]
pub struct Row {
    pub task: TaskId,
    /// The parent of a sub task, and the place among the parent's sub entries.
    pub parent: Option<(TaskId, u32)>,
    pub model: u32,
    pub state: State,
    pub owner: Option<Person>,
    /// Who owned the task before it ended.
    pub last_owner: Option<Person>,
    pub initiator: Person,
    pub potential_owners: Persons,
    pub excluded_owners: Persons,
    pub administrators: Persons,
    pub stakeholders: Persons,
    /// Whether the potential owners were assigned by a group, or as everybody.
    pub by_group: bool,
    pub started: bool,
    /// 0, the highest, to `LOWEST_PRIORITY`.
    pub priority: u8,
    pub input: Values,
    pub output: Values,
    pub created: Moment,
    /// When a task that was only created is to be activated.
    pub waits: Option<Moment>,
    /// When its suspension ends.
    pub until: Option<Moment>,
    pub fault: Option<Name>,
    pub taken: Taken,
    pub comments: Comments,
}

impl Row {
    pub fn copy(&self, alloc: Global) -> Result<Row, Memory>
        ensures { IfOk result (λ row. row ≡ self.now) }
    {
        Ok(Row {
            task: self.task,
            parent: self.parent,
            model: self.model,
            state: self.state,
            owner: self.owner,
            last_owner: self.last_owner,
            initiator: self.initiator,
            potential_owners: self.potential_owners.copy(alloc)?,
            excluded_owners: self.excluded_owners.copy(alloc)?,
            administrators: self.administrators.copy(alloc)?,
            stakeholders: self.stakeholders.copy(alloc)?,
            by_group: self.by_group,
            started: self.started,
            priority: self.priority,
            input: self.input.copy(alloc)?,
            output: self.output.copy(alloc)?,
            created: self.created,
            waits: self.waits,
            until: self.until,
            fault: self.fault,
            taken: self.taken.copy(alloc)?,
            comments: self.comments.copy(alloc)?,
        })
    }

    /// A row of the same task, as it was before any of its roles was set.
    pub(crate) fn emptied(&self, alloc: Global) -> Row
        ensures { result ≡ emptied self.now }
    {
        Row {
            task: self.task,
            parent: self.parent,
            model: self.model,
            state: State::Created,
            owner: None,
            last_owner: None,
            initiator: self.initiator,
            potential_owners: Persons::new(alloc),
            excluded_owners: Persons::new(alloc),
            administrators: Persons::new(alloc),
            stakeholders: Persons::new(alloc),
            by_group: false,
            started: false,
            priority: MIDDLE_PRIORITY,
            input: Values::new(alloc),
            output: Values::new(alloc),
            created: self.created,
            waits: None,
            until: None,
            fault: None,
            taken: Taken::new(alloc),
            comments: Comments::new(alloc),
        }
    }
}
