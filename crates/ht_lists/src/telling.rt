ghost use Rattle.std.specs.Prelude.{◌≡◌, ◌+◌, ◌-◌, ◌^◌, ◌<◌, ◌≤◌, List, [], ◌∷◌, ◌++◌, IfOk, OnOk};
ghost use Rattle.ht_base.specs.declared.notice_page.NoticeRow.{NoticeRow};
ghost use Rattle.ht_lists.specs.Lists as spec;
ghost use Rattle.ht_lists.specs.Lists.{notice_page_of, told_from};
ghost use Rattle.ht_lists.specs.Parts.{Looks};

use ht_base::{Memory, NoticePage, NoticeRow, NoticeRows, Person};
use ht_tree::{Notice, Tables};
use std::alloc::Global;

/// A part of the notifications that were sent to a person, by their numbers (WS-HumanTask 1.1, 4.9):
/// `from` of them are passed over, and at most `count` are told.
pub fn notices(
    alloc: Global,
    tables: &Tables,
    person: Person,
    from: u32,
    count: u32,
) -> Result<NoticePage, Memory>
    ensures { IfOk result (λ page. page ≡ notice_page_of tables.now.tables person from count) }
{
    let mut part = Part {
        rows: NoticeRows::new(alloc),
        total: 0,
        passed: from,
        left: count,
    };
    for before in 0..tables.notices() {
        let number = before + 1;
        let Some(notice) = tables.notice(number) else {
            unreachable!()
        };
        part.look_at(number, notice, person)?;
    }
    let Part { rows, total, .. } = part;
    Ok(NoticePage { rows, total })
}

// What is told so far, how many there were, how many more are passed over, and how many told then.
#[derive(Drop)]
pub(crate) struct Part {
    rows: NoticeRows,
    total: u32,
    passed: u32,
    left: u32,
}

impl Part {
    // One more notification, which may be one of the person's.
    fn look_at(&mut self, number: u32, notice: &Notice, person: Person) -> Result<(), Memory>
        requires { self.old.total < number }
        ensures looks { OnOk result ((later : List NoticeRow)
            → Looks (told_from number person (notice.now ∷ []) ++ later) self.old later self.new) }
        ensures few { OnOk result (self.new.total ≤ number) }
    {
        if notice.recipients.contains(person) {
            self.take(notice_row(number, notice))
        } else {
            Ok(())
        }
    }

    // One more that is the person's.
    fn take(&mut self, row: NoticeRow) -> Result<(), Memory>
        requires { self.old.total < 2 ^ 32 - 1 }
        ensures looks { OnOk result ((later : List NoticeRow)
            → Looks (row ∷ later) self.old later self.new) }
        ensures total { OnOk result (self.new.total ≡ self.old.total + 1) }
    {
        self.total += 1;
        if self.passed > 0 {
            self.passed -= 1;
            return Ok(());
        }
        if self.left == 0 {
            return Ok(());
        }
        self.left -= 1;
        self.rows.push(row)
    }
}

fn notice_row(number: u32, notice: &Notice) -> NoticeRow
    ensures { result ≡ spec.notice_row number notice.now }
{
    NoticeRow {
        deadline: notice.deadline,
        escalation: notice.escalation,
        moment: notice.moment,
        number,
        task: notice.task,
    }
}
