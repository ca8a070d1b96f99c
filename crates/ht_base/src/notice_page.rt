ghost use Rattle.std.specs.Prelude.{◌≡◌, [], ◌∷◌, ◌++◌, IfOk, OnOk, OnErr};

use crate::{Memory, Moment, Name, TaskId};
use std::alloc::Global;
use std::marker::Model;

/// What a list tells of a notification (WS-HumanTask 1.1, 4.7.2 "Escalations").
#[derive(Clone, Copy)]
pub struct NoticeRow {
    pub deadline: Name,
    pub escalation: Name,
    /// When it was sent.
    pub moment: Moment,
    /// 1 for the first of the office.
    pub number: u32,
    pub task: TaskId,
}

/// A part of the list of the notifications of a person.
#[derive(Drop)]
pub struct NoticePage {
    pub rows: NoticeRows,
    /// The notifications of the whole list.
    pub total: u32,
}

impl NoticePage {
    pub fn copy(&self, alloc: Global) -> Result<NoticePage, Memory>
        ensures { IfOk result (λ p. p ≡ self.now) }
    {
        Ok(NoticePage {
            rows: self.rows.copy(alloc)?,
            total: self.total,
        })
    }
}

/// Notifications as a list tells of them, by their numbers. A contract sees them as their list.
#[derive(Drop)]
pub struct NoticeRows {
    items: Vec<NoticeRow>,
}

impl Model for NoticeRows {
    ghost use Rattle.std.specs.Prelude.{List};
    ghost use Rattle.ht_base.specs.declared.notice_page.NoticeRow.{NoticeRow as Told};

    ghost Value = { List Told };

    ghost view = { λ r. r.items.items };
}

impl NoticeRows {
    /// No notifications.
    pub fn new(alloc: Global) -> NoticeRows
        ensures { result ≡ [] }
    {
        NoticeRows {
            items: Vec::new(alloc),
        }
    }

    pub fn copy(&self, alloc: Global) -> Result<NoticeRows, Memory>
        ensures { IfOk result (λ r. r ≡ self.now) }
    {
        Ok(NoticeRows {
            items: self.items.to_vec(alloc)?,
        })
    }

    pub fn as_slice(&self) -> &[NoticeRow]
        ensures { result.now ≡ self.now }
    {
        &self.items
    }

    /// Puts a notification behind the others.
    pub fn push(&mut self, row: NoticeRow) -> Result<(), Memory>
        ensures ok { OnOk result (self.new ≡ self.old ++ row ∷ []) }
        ensures err { OnErr result (self.new ≡ self.old) }
    {
        self.items.push(row)?;
        Ok(())
    }
}
