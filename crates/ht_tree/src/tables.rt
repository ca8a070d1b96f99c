ghost use Rattle.std.specs.Prelude.{◌≡◌, ◌≤◌, ◌<◌, ◌+◌, ◌++◌, [], IfOk, IfSome, filter, fold, OnOk, Some, length, option_map, vec_capacity, vec_len};
ghost use Rattle.ht_tree.specs.declared.row.Row.{Row};
ghost use Rattle.ht_tree.specs.Puts.{CanPut};
ghost use Rattle.ht_tree.specs.ListedBy as lists;
ghost use Rattle.ht_tree.specs.Plans.{AreDuesPrepared, AreListsPrepared, IsNext, IsPlanOf, IsPrepared, committed};
ghost use Rattle.ht_tree.specs.RowDues.{all_dues};
ghost use Rattle.ht_tree.specs.Rows.{put_in, row_at};
ghost use Rattle.ht_tree.specs.Sizes.{total_size};
ghost use Rattle.ht_tree.specs.Soundness.{IsSound, IsSoundRow};
ghost use Rattle.ht_tree.specs.Tables.{device_slot, directory, empty_tables, notice_at, task_row};

use crate::changed_dues::{dues_after, dues_before};
use crate::exchanging::exchange;
use crate::moves::{Moves, moves_of};
use crate::slot::{put_slot, slot_of};
use crate::{Notice, Plan, Row, Slot};
use ht_base::{Memory, Moment, Person, TaskId};
use ht_due::{Due, DueQueue};
use ht_index::{Index, TaskSets, Tasks};
use ht_models::Models;
use ht_people::Directory;
use std::alloc::Global;
use std::marker::Model;

/// The tasks of an office, over its models and its people, its notifications, and the last numbered
/// command of each device. A contract also sees in `room`, `notice_room`, `slot_room` and `due_room` how
/// many more tasks, notifications, devices and dues they take without memory, in `gone` and `news` the
/// dues that go and come with the plan that was prepared last, and in `sub_moves`, `person_moves`,
/// `live_moves` and `owner_moves` the tasks that move with it between the lists of tasks.
#[derive(Drop)]
pub struct Tables {
    models: Models,
    people: Directory,
    rows: Vec<Row>,
    notices: Vec<Notice>,
    // In the order of their persons and devices.
    slots: Vec<Slot>,
    last: Moment,
    // The tasks of the trees of all top tasks.
    size: u64,
    // What is due of all rows.
    queue: DueQueue,
    // The dues that go and that come with the plan that was prepared last.
    gone: Vec<Due>,
    news: Vec<Due>,
    // The sub tasks of each task.
    subs: Index,
    // The tasks in which each person has a role.
    persons: TaskSets,
    // Those of them that aren't final.
    live: TaskSets,
    // The tasks that each person owns.
    owners: TaskSets,
}

impl Model for Tables {
    ghost use Rattle.ht_tree.specs.Tables.{RoomyTables};
    ghost use Rattle.std.specs.Coded.{codes};
    ghost use Rattle.ht_expr.specs.Codes.{coded_tree};

    ghost Value = { RoomyTables };

    ghost coded = { Prim.hlevel (codes, coded_tree) };

    ghost use Rattle.ht_tree.specs.Kept.{IsKept, roomy};

    ghost view = { roomy };

    ghost invariant = { IsKept };
}

impl Tables {
    /// No tasks, at moment 0.
    pub fn new(alloc: Global, models: Models, people: Directory) -> Result<Tables, Memory>
        ensures { IfOk result (λ t. t.tables ≡ empty_tables models people) }
    {
        Ok(Tables {
            models,
            people,
            rows: Vec::new(alloc),
            notices: Vec::new(alloc),
            slots: Vec::new(alloc),
            last: Moment(0),
            size: 0,
            queue: DueQueue::new(alloc),
            gone: Vec::new(alloc),
            news: Vec::new(alloc),
            subs: Index::new(alloc),
            persons: TaskSets::new(alloc),
            live: TaskSets::new(alloc),
            owners: TaskSets::new(alloc),
        })
    }

    /// The row of a task, if there is such a task.
    pub fn row(&self, id: TaskId) -> Option<&Row>
        ensures value { option_map (λ r. r.now) result ≡ task_row self.now.tables id.0 }
        ensures sound { IfSome result (λ r. IsSoundRow self.now.tables r.now) }
    {
        row_in(&self.rows, id)
    }

    /// How many tasks there are.
    pub fn rows(&self) -> u32
        ensures value { result ≡ length self.now.tables.rows }
        ensures sound { IsSound self.now.tables }
    {
        self.rows.len() as u32
    }

    /// The notification of a number, which counts from 1, if there is one.
    pub fn notice(&self, number: u32) -> Option<&Notice>
        ensures value { option_map (λ n. n.now) result ≡ notice_at number self.now.tables.notices }
        ensures sound { IsSound self.now.tables }
    {
        notice_in(&self.notices, number)
    }

    /// How many notifications there are.
    pub fn notices(&self) -> u32
        ensures value { result ≡ length self.now.tables.notices }
        ensures sound { IsSound self.now.tables }
    {
        self.notices.len() as u32
    }

    /// The last numbered command of a person's device, if there was one.
    pub fn slot(&self, person: Person, device: u8) -> Option<Slot>
        ensures value { result ≡ device_slot self.now.tables person device }
        ensures sound { IsSound self.now.tables }
    {
        slot_of(&self.slots, person, device)
    }

    /// The moment of the last record.
    pub fn last(&self) -> Moment
        ensures value { result.0 ≡ self.now.tables.last }
        ensures sound { IsSound self.now.tables }
    {
        self.last
    }

    pub fn models(&self) -> &Models
        ensures value { result.now ≡ self.now.tables.models }
        ensures sound { IsSound self.now.tables }
    {
        &self.models
    }

    pub fn people(&self) -> &Directory
        ensures { result.now ≡ directory self.now.tables }
    {
        &self.people
    }

    /// What is due of all tasks, in order: deferred activations, the ends of suspensions, and deadlines
    /// that are neither taken nor obsolete (WS-HumanTask 1.1, 4.9).
    pub fn due(&self) -> &DueQueue
        ensures value { result.now.dues ≡ all_dues self.now.tables }
        ensures sound { IsSound self.now.tables }
    {
        &self.queue
    }

    /// The sub tasks of a task, ascending by number (WS-HumanTask 1.1, 4.7). Of a task that isn't there
    /// there are none.
    pub fn subs(&self, id: TaskId) -> &[TaskId]
        ensures value { result.now ≡ lists.sub_ids id.0 self.now.tables.rows }
        ensures sound { IsSound self.now.tables }
    {
        self.subs.list(id.0)
    }

    /// The tasks of which a person is initiator, stakeholder, potential owner, actual owner or business
    /// administrator (WS-HumanTask 1.1, 3.1), ascending by number.
    pub fn rows_of(&self, person: Person) -> &Tasks
        ensures value { result.now.tasks ≡ lists.rows_of person self.now.tables.rows }
        ensures sound { IsSound self.now.tables }
    {
        self.persons.tasks(person.0)
    }

    /// Those of them that aren't final.
    pub fn live_rows_of(&self, person: Person) -> &Tasks
        ensures value { result.now.tasks ≡ lists.live_rows_of person self.now.tables.rows }
        ensures sound { IsSound self.now.tables }
    {
        self.live.tasks(person.0)
    }

    /// The tasks of which a person is the actual owner (WS-HumanTask 1.1, 3.1), ascending by number.
    pub fn owned_by(&self, person: Person) -> &Tasks
        ensures value { result.now.tasks ≡ lists.owned_by person self.now.tables.rows }
        ensures sound { IsSound self.now.tables }
    {
        self.owners.tasks(person.0)
    }

    /// The tasks of the trees of all top tasks.
    pub(crate) fn size(&self) -> u64
        ensures value { result ≡ total_size self.now.tables.models self.now.tables.rows }
        ensures sound { IsSound self.now.tables }
    {
        self.size
    }

    /// Takes all the memory that the commit of this plan needs.
    pub fn prepare(&mut self, plan: &Plan) -> Result<(), Memory>
        requires { IsPlanOf self.old.tables plan.now }
        ensures tables { self.new.tables ≡ self.old.tables }
        ensures prepared { OnOk result (IsPrepared self.new plan.now) }
    {
        let more = plan.new_rows(self);
        self.rows.reserve(more)?;
        self.notices.reserve(plan.told())?;
        if self.notices.len() + plan.told() > u32::MAX as usize {
            return Err(Memory);
        }
        if plan.keeps() {
            self.slots.reserve(1)?;
        }
        self.prepare_dues(plan)?;
        self.prepare_lists(plan)
    }

    // Finds the dues that go and that come with a plan, and makes room for those that come.
    fn prepare_dues(&mut self, plan: &Plan) -> Result<(), Memory>
        requires { IsPlanOf self.old.tables plan.now }
        ensures tables { self.new.tables ≡ self.old.tables }
        ensures prepared { OnOk result (AreDuesPrepared self.new plan.now) }
        ensures room { self.new.room ≡ self.old.room }
        ensures notice_room { self.new.notice_room ≡ self.old.notice_room }
        ensures slot_room { self.new.slot_room ≡ self.old.slot_room }
    {
        let alloc = *self.rows.allocator();
        self.gone = dues_before(alloc, self, plan)?;
        self.news = dues_after(alloc, self, plan)?;
        let Ok(more) = u32::try_from(self.news.len()) else {
            return Err(Memory);
        };
        self.queue.reserve(more)
    }

    // Finds how the lists of tasks change with a plan, and makes room for what comes to them.
    fn prepare_lists(&mut self, plan: &Plan) -> Result<(), Memory>
        requires { IsPlanOf self.old.tables plan.now }
        ensures tables { self.new.tables ≡ self.old.tables }
        ensures prepared { OnOk result (AreListsPrepared self.new plan.now) }
        ensures room { self.new.room ≡ self.old.room }
        ensures notice_room { self.new.notice_room ≡ self.old.notice_room }
        ensures slot_room { self.new.slot_room ≡ self.old.slot_room }
        ensures due_room { self.new.due_room ≡ self.old.due_room }
        ensures gone { self.new.gone ≡ self.old.gone }
        ensures news { self.new.news ≡ self.old.news }
    {
        let alloc = *self.rows.allocator();
        let Moves {
            subs,
            persons,
            live,
            owners,
        } = moves_of(alloc, self, plan)?;
        self.subs.prepare(subs)?;
        self.persons.prepare(persons)?;
        self.live.prepare(live)?;
        self.owners.prepare(owners)
    }

    /// Makes the planned change. It can't be refused, and takes no memory.
    pub fn commit(&mut self, plan: Plan, at: Moment)
        requires fits { IsPlanOf self.old.tables plan }
        requires prepared { IsPrepared self.old plan }
        requires sound { IsSound (committed self.old.tables plan at.0) }
        requires later { self.old.tables.last ≤ at.0 }
        ensures { self.new.tables ≡ committed self.old.tables plan at.0 }
    {
        self.size = plan.size(self) as u64;
        self.last = at;
        exchange(&mut self.queue, &self.gone, &self.news);
        self.subs.make_moves();
        self.persons.make_moves();
        self.live.make_moves();
        self.owners.make_moves();
        let (rows, notices, slot) = plan.into_changes();
        tell(&mut self.notices, notices);
        put_all(&mut self.rows, rows);
        if let Some(slot) = slot {
            put_slot(&mut self.slots, slot);
        }
    }
}

fn row_in(rows: &[Row], id: TaskId) -> Option<&Row>
    ensures { option_map (λ r. r.now) result ≡ row_at id.0 rows.now }
{
    rows.get((id.0 as usize).wrapping_sub(1))
}

fn notice_in(notices: &[Notice], number: u32) -> Option<&Notice>
    ensures { option_map (λ n. n.now) result ≡ notice_at number notices.now }
{
    if number == 0 {
        return None;
    }
    notices.get(number as usize - 1)
}

// Adds notifications. It takes no memory.
fn tell(notices: &mut Vec<Notice>, more: Vec<Notice>)
    requires { vec_len notices.old + length more.items ≤ vec_capacity notices.old }
    ensures { notices.new.items ≡ notices.old.items ++ more.items }
{
    for notice in more {
        notices.push_reserved(notice);
    }
}

// Puts rows one after another. It takes no memory.
fn put_all(rows: &mut Vec<Row>, puts: Vec<Row>)
    requires puts { CanPut rows.old.items puts.items }
    requires room { length (fold put_in rows.old.items puts.items) ≤ vec_capacity rows.old }
    ensures { rows.new.items ≡ fold put_in rows.old.items puts.items }
{
    for row in puts {
        put_row(rows, row);
    }
}

// Puts a row in its task's place, or behind the others.
fn put_row(rows: &mut Vec<Row>, row: Row)
    requires next { IsNext rows.old.items row }
    requires room { length rows.old.items < row.task.0 → vec_len rows.old < vec_capacity rows.old }
    ensures rows { rows.new.items ≡ put_in rows.old.items row }
    ensures capacity { vec_capacity rows.new ≡ vec_capacity rows.old }
{
    let place = row.task.0 as usize - 1;
    if place < rows.len() {
        rows[place] = row;
    } else {
        rows.push_reserved(row);
    }
}
