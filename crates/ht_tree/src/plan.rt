ghost use Rattle.std.specs.Prelude.{◌≡◌, ◌<◌, ◌^◌, false, IfOk, IfSome, IsSome, IsTrue, Some, OnOk, OnErr, is_some, length, option_map};
ghost use Rattle.ht_tree.specs.Activation.{activated_to};
ghost use Rattle.ht_tree.specs.Places.{last_of};
ghost use Rattle.ht_tree.specs.Plans.{AreTotals, GoesByRow, IsNext, IsPlanOf, IsSoundPlan, keeping, KeepsFile, Lends, new_rows, no_plan, notifying, planned};
ghost use Rattle.ht_tree.specs.Roles as spec;
ghost use Rattle.ht_tree.specs.Rows.{put_in};
ghost use Rattle.ht_tree.specs.Sizes.{total_size};
ghost use Rattle.ht_tree.specs.Soundness.{Fits};
ghost use Rattle.ht_tree.specs.Tables.{TablesOf, task_row};

use crate::activating::activated;
use crate::puts::Puts;
use crate::roles::roles_in;
use crate::sizes::resized;
use crate::{Notice, Row, Slot, Tables};
use ht_base::{Memory, Person, Roles, State, TaskId};
use std::alloc::Global;
use std::marker::Model;

/// A planned change of the tables: the rows that are put, of which the last of a task counts, the
/// notifications that are added, and the reply that is kept. It can go back to its last mark. What it is
/// asked costs at most a logarithm of the number of its rows.
#[derive(Drop)]
pub struct Plan {
    puts: Puts,
    mark: usize,
    notices: Vec<Notice>,
    notice_mark: usize,
    noted: Noted,
    marked: Noted,
}

// What is noted beside the rows: the totals after them, from the first put on, and the reply that is
// kept.
#[derive(Clone, Copy)]
struct Noted {
    totals: Option<Totals>,
    slot: Option<Slot>,
}

// How many tasks there would be, and how many in the trees of all top tasks.
#[derive(Clone, Copy)]
struct Totals {
    rows: u32,
    size: u128,
}

impl Model for Plan {
    ghost use Rattle.ht_tree.specs.Plans.{PlanOf};

    ghost Value = { PlanOf };

    ghost use Rattle.ht_tree.specs.Kept.{IsMarked, plan_in};

    ghost view = { plan_in };

    ghost invariant = { IsMarked };
}

impl Plan {
    /// Changes nothing.
    pub fn begin(alloc: Global) -> Result<Plan, Memory>
        ensures { IfOk result (λ plan. plan ≡ no_plan) }
    {
        let nothing = Noted {
            totals: None,
            slot: None,
        };
        let marked = nothing;
        Ok(Plan {
            puts: Puts::new(alloc),
            mark: 0,
            notices: Vec::new(alloc),
            notice_mark: 0,
            noted: nothing,
            marked,
        })
    }

    /// The row of a task as it would be after the plan.
    pub fn row<'a>(&'a self, tables: &'a Tables, id: TaskId) -> Option<&'a Row>
        requires { IsPlanOf tables.now.tables self.now }
        ensures value { option_map (λ r. r.now) result
            ≡ task_row (planned tables.now.tables self.now) id.0 }
        ensures fits { IfSome result (λ r. Fits tables.now.tables r.now) }
    {
        match self.puts.last(id) {
            Some(row) => Some(row),
            None => tables.row(id),
        }
    }

    /// Whether a row of the task is put.
    pub fn puts_row(&self, id: TaskId) -> bool
        ensures { result ≡ is_some (last_of id.0 self.now.changes.rows) }
    {
        self.puts.last(id).is_some()
    }

    /// How many tasks there would be after the plan.
    pub fn rows(&self, tables: &Tables) -> u32
        requires { IsPlanOf tables.now.tables self.now }
        ensures { result ≡ length (planned tables.now.tables self.now).rows }
    {
        self.totals(tables).rows
    }

    /// Puts a row: of a task that there would be after the plan, or of the next. It takes the place of
    /// the one that was put of its task behind the mark.
    pub fn put(&mut self, tables: &Tables, row: Row) -> Result<(), Memory>
        requires plan { IsPlanOf tables.now.tables self.old }
        requires next { IsNext (planned tables.now.tables self.old).rows row }
        requires file { KeepsFile (planned tables.now.tables self.old).rows row }
        requires fits { Fits tables.now.tables row }
        ensures goes { OnOk result (GoesByRow tables.now.tables self.old self.new row) }
        ensures err { OnErr result (self.new ≡ self.old) }
    {
        let totals = self.totals_with(tables, &row);
        self.puts.put(self.mark, row)?;
        self.noted.totals = Some(totals);
        Ok(())
    }

    /// Takes the row of a task as it would be after the plan, to be changed and put again: moved, where
    /// it was put behind the mark, and else copied.
    pub fn take(&mut self, alloc: Global, tables: &Tables, id: TaskId) -> Result<Row, Memory>
        requires plan { IsPlanOf tables.now.tables self.old }
        requires there { IsSome (task_row (planned tables.now.tables self.old) id.0) }
        ensures row { IfOk result
            (λ row. task_row (planned tables.now.tables self.old) id.0 ≡ Some row) }
        ensures fits { IfOk result (λ row. Fits tables.now.tables row) }
        ensures lends { OnOk result (Lends tables.now.tables self.old self.new id.0) }
        ensures err { OnErr result (self.new ≡ self.old) }
    {
        // A start and an end change the row that was just put.
        if let Some(row) = self.puts.take_only(self.mark, id) {
            self.noted.totals = self.marked.totals;
            return Ok(row);
        }
        if let Some(row) = self.puts.lend(alloc, self.mark, id) {
            return Ok(row);
        }
        match self.row(tables, id) {
            Some(row) => Ok(row.copy(alloc)?),
            None => unreachable!(),
        }
    }

    /// Puts the row of a task again, activated to this state and owner (WS-HumanTask 1.1, 4.10.1): it waits
    /// no more.
    pub fn activate(
        &mut self,
        alloc: Global,
        tables: &Tables,
        id: TaskId,
        state: State,
        owner: Option<Person>,
    ) -> Result<(), Memory>
        requires plan { IsSoundPlan tables.now.tables self.old }
        requires there { IsSome (task_row (planned tables.now.tables self.old) id.0) }
        requires fits { IfSome (task_row (planned tables.now.tables self.old) id.0)
            (λ row. Fits tables.now.tables (activated_to state owner row)) }
        ensures goes { OnOk result (IfSome (task_row (planned tables.now.tables self.old) id.0)
            (λ row. GoesByRow tables.now.tables self.old self.new
            (activated_to state owner row))) }
        ensures err { OnErr result (self.new ≡ self.old) }
    {
        // The check takes an owner that was passed on for moved.
        let again = owner;
        // A new task's row was just put, and is not moved again.
        if self.activate_put(id, state, owner) {
            return Ok(());
        }
        self.activate_copy(alloc, tables, id, state, again)
    }

    // Activates the row in its place, where it was put behind the mark, and tells whether it did.
    fn activate_put(&mut self, id: TaskId, state: State, owner: Option<Person>) -> bool
        ensures goes { IsTrue result → (t : TablesOf) → IsPlanOf t self.old
            → IfSome (task_row (planned t self.old) id.0) (λ row.
            Fits t (activated_to state owner row)
            → GoesByRow t self.old self.new (activated_to state owner row)) }
        ensures other { result ≡ false → self.new ≡ self.old }
    {
        self.puts.activate(self.mark, id, state, owner)
    }

    // Puts an activated copy of the row.
    fn activate_copy(
        &mut self,
        alloc: Global,
        tables: &Tables,
        id: TaskId,
        state: State,
        owner: Option<Person>,
    ) -> Result<(), Memory>
        requires plan { IsSoundPlan tables.now.tables self.old }
        requires there { IsSome (task_row (planned tables.now.tables self.old) id.0) }
        requires fits { IfSome (task_row (planned tables.now.tables self.old) id.0)
            (λ row. Fits tables.now.tables (activated_to state owner row)) }
        ensures goes { OnOk result (IfSome (task_row (planned tables.now.tables self.old) id.0)
            (λ row. GoesByRow tables.now.tables self.old self.new
            (activated_to state owner row))) }
        ensures err { OnErr result (self.new ≡ self.old) }
    {
        let Some(row) = self.row(tables, id) else {
            unreachable!()
        };
        let copy = row.copy(alloc)?;
        self.put(tables, activated(copy, state, owner))
    }

    /// Adds a notification behind the others.
    pub fn notify(&mut self, notice: Notice) -> Result<(), Memory>
        ensures ok { OnOk result (self.new ≡ notifying self.old notice) }
        ensures err { OnErr result (self.new ≡ self.old) }
    {
        self.notices.push(notice)?;
        Ok(())
    }

    /// Keeps a reply as that of its device's last command.
    pub fn keep(&mut self, slot: Slot)
        ensures { self.new ≡ keeping self.old slot }
    {
        self.noted.slot = Some(slot);
    }

    /// Marks the plan as it is, to go back to.
    pub fn mark(&mut self)
        ensures value { self.new ≡ record self.old { marked = self.old.changes } }
        ensures fits { (t : TablesOf) → IsPlanOf t self.old → IsPlanOf t self.new }
    {
        self.mark = self.puts.len();
        self.notice_mark = self.notices.len();
        self.marked = self.noted;
    }

    /// Goes back to the last mark, or to no change.
    pub fn back(&mut self)
        ensures value { self.new ≡ record self.old { changes = self.old.marked } }
        ensures fits { (t : TablesOf) → IsPlanOf t self.old → IsPlanOf t self.new }
    {
        self.puts.truncate(self.mark);
        self.notices.truncate(self.notice_mark);
        self.noted = self.marked;
    }

    /// The roles of a person in a task as it would be after the plan.
    pub fn roles_of(&self, tables: &Tables, id: TaskId, person: Person) -> Roles
        requires plan { IsPlanOf tables.now.tables self.now }
        requires row { IsSome (task_row (planned tables.now.tables self.now) id.0) }
        requires person { person < length tables.now.tables.people.persons }
        ensures { IfSome (task_row (planned tables.now.tables self.now) id.0)
            (λ row. result ≡ spec.roles_in (planned tables.now.tables self.now) row person) }
    {
        match self.row(tables, id) {
            Some(row) => roles_in(tables, row, person),
            None => unreachable!(),
        }
    }

    /// The tasks of the trees of all top tasks that there would be after the plan.
    pub(crate) fn size(&self, tables: &Tables) -> u128
        requires { IsPlanOf tables.now.tables self.now }
        ensures value { result ≡ total_size tables.now.tables.models
            (planned tables.now.tables self.now).rows }
        ensures small { result < 2 ^ 100 }
    {
        self.totals(tables).size
    }

    /// The rows that are put, in order, the notifications that are added, and the reply that is kept.
    pub(crate) fn into_changes(self) -> (Vec<Row>, Vec<Notice>, Option<Slot>)
        ensures rows { result.0.items ≡ self.changes.rows }
        ensures notices { result.1.items ≡ self.changes.notices }
        ensures slot { result.2 ≡ self.changes.slot }
    {
        let Plan {
            puts,
            notices,
            noted,
            ..
        } = self;
        (puts.into_rows(), notices, noted.slot)
    }

    /// How many notifications are added.
    pub(crate) fn told(&self) -> usize
        ensures { result ≡ length self.now.changes.notices }
    {
        self.notices.len()
    }

    /// The rows that are put, in order. Of a task there may be several.
    pub(crate) fn puts(&self) -> &[Row]
        ensures { result.now ≡ self.now.changes.rows }
    {
        self.puts.as_slice()
    }

    /// Whether a reply is kept.
    pub(crate) fn keeps(&self) -> bool
        ensures { result ≡ is_some self.now.changes.slot }
    {
        self.noted.slot.is_some()
    }

    /// How many tasks are new.
    pub(crate) fn new_rows(&self, tables: &Tables) -> usize
        requires { IsPlanOf tables.now.tables self.now }
        ensures { result ≡ new_rows tables.now.tables self.now }
    {
        (self.rows(tables) - tables.rows()) as usize
    }

    // The totals of the tables as they would be after the plan.
    fn totals(&self, tables: &Tables) -> Totals
        requires { IsPlanOf tables.now.tables self.now }
        ensures { AreTotals tables.now.tables (planned tables.now.tables self.now).rows result }
    {
        match self.noted.totals {
            Some(totals) => totals,
            None => Totals {
                rows: tables.rows(),
                size: u128::from(tables.size()),
            },
        }
    }

    // And with one more row.
    fn totals_with(&self, tables: &Tables, row: &Row) -> Totals
        requires plan { IsPlanOf tables.now.tables self.now }
        requires next { IsNext (planned tables.now.tables self.now).rows row.now }
        requires fits { Fits tables.now.tables row.now }
        ensures { AreTotals tables.now.tables
            (put_in (planned tables.now.tables self.now).rows row.now) result }
    {
        let Totals { rows, size } = self.totals(tables);
        let before = self.row(tables, row.task);
        Totals {
            rows: rows.max(row.task.0),
            size: resized(tables.models(), size, before, row),
        }
    }
}
