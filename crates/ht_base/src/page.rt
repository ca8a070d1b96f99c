ghost use Rattle.std.specs.Prelude.{◌≡◌, [], ◌∷◌, ◌++◌, IfOk, OnOk, OnErr};

use crate::{Memory, Moment, Name, State, TaskId};
use std::alloc::Global;
use std::marker::Model;

/// What a list tells of a task.
#[derive(Clone, Copy)]
pub struct PageRow {
    pub created: Moment,
    pub model: Name,
    pub owner: Option<Name>,
    /// 0, the highest, to `LOWEST_PRIORITY`.
    pub priority: u8,
    pub state: State,
    pub task: TaskId,
}

/// A part of a list of tasks (WS-HumanTask 1.1, 7.1.2 "getMyTasks").
#[derive(Drop)]
pub struct Page {
    pub rows: PageRows,
    /// The tasks of the whole list.
    pub total: u32,
}

impl Page {
    pub fn copy(&self, alloc: Global) -> Result<Page, Memory>
        ensures { IfOk result (λ p. p ≡ self.now) }
    {
        Ok(Page {
            rows: self.rows.copy(alloc)?,
            total: self.total,
        })
    }
}

/// Tasks as a list tells of them, in its order. A contract sees them as their list.
#[derive(Drop)]
pub struct PageRows {
    items: Vec<PageRow>,
}

impl Model for PageRows {
    ghost use Rattle.std.specs.Prelude.{List};
    ghost use Rattle.ht_base.specs.declared.page.PageRow.{PageRow as Told};

    ghost Value = { List Told };

    ghost view = { λ r. r.items.items };
}

impl PageRows {
    /// No tasks.
    pub fn new(alloc: Global) -> PageRows
        ensures { result ≡ [] }
    {
        PageRows {
            items: Vec::new(alloc),
        }
    }

    pub fn copy(&self, alloc: Global) -> Result<PageRows, Memory>
        ensures { IfOk result (λ r. r ≡ self.now) }
    {
        Ok(PageRows {
            items: self.items.to_vec(alloc)?,
        })
    }

    pub fn as_slice(&self) -> &[PageRow]
        ensures { result.now ≡ self.now }
    {
        &self.items
    }

    /// Puts a task behind the others.
    pub fn push(&mut self, row: PageRow) -> Result<(), Memory>
        ensures ok { OnOk result (self.new ≡ self.old ++ row ∷ []) }
        ensures err { OnErr result (self.new ≡ self.old) }
    {
        // The borrow checker finds the type of an owner only where a body touches one.
        let _owner = row.owner;
        self.items.push(row)?;
        Ok(())
    }
}
