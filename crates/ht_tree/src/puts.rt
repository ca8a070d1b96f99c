ghost use Rattle.std.specs.Prelude.{◌≡◌, ◌++◌, ◌∷◌, ◌≤◌, ◌<◌, [], false, length, IsTrue, MatchOption, OnOk, OnErr, Some, option_map, slice_get, slice_set, take, vec_capacity, vec_len};
ghost use Rattle.ht_tree.specs.declared.row.Row.{Row};
ghost use Rattle.ht_tree.specs.Activation.{activated_to};
ghost use Rattle.ht_tree.specs.Places.{IsLent, IsOnly, last_of, last_place, put_past, tasks_of};

use crate::Row;
use crate::activating::activate_row;
use crate::index::Index;
use ht_base::{Memory, Person, State, TaskId};
use std::alloc::Global;
use std::marker::Model;
use std::mem;

/// How many rows are looked through. A plan of one command seldom puts more. The invariant of [`Puts`],
/// in specs/KeptIndex.antt, says the same number.
const FEW: usize = 4;

/// Rows that are put one after another: the first few are looked through, and the others have an index.
/// Most are of the task that was put last, or of one behind all.
#[derive(Drop)]
pub(crate) struct Puts {
    rows: Vec<Row>,
    others: Index,
    // No row is of a task behind it.
    highest: u32,
}

impl Model for Puts {
    ghost use Rattle.std.specs.Prelude.{List};
    ghost use Rattle.ht_tree.specs.declared.row.Row.{Row};

    ghost Value = { List Row };

    ghost use Rattle.ht_tree.specs.KeptIndex.{AreIndexed, puts_in};

    ghost view = { puts_in };

    ghost invariant = { AreIndexed };
}

impl Puts {
    pub(crate) fn new(alloc: Global) -> Puts
        ensures { result ≡ [] }
    {
        Puts {
            rows: Vec::new(alloc),
            others: Index::new(alloc),
            highest: 0,
        }
    }

    pub(crate) fn len(&self) -> usize
        ensures { result ≡ length self.now }
    {
        self.rows.len()
    }

    /// The rows, in the order in which they were put.
    pub(crate) fn as_slice(&self) -> &[Row]
        ensures { result.now ≡ self.now }
    {
        &self.rows
    }

    fn get(&self, place: usize) -> Option<&Row>
        ensures { option_map (λ r. r.now) result ≡ slice_get self.now place }
    {
        self.rows.get(place)
    }

    /// The last row of a task.
    pub(crate) fn last(&self, task: TaskId) -> Option<&Row>
        ensures { option_map (λ r. r.now) result ≡ last_of task.0 self.now }
    {
        match self.place(task) {
            Some(place) => self.get(place),
            None => None,
        }
    }

    // The place of the last row of a task.
    fn place(&self, task: TaskId) -> Option<usize>
        ensures { result ≡ last_place task.0 (tasks_of self.now) }
    {
        if task.0 > self.highest {
            return None;
        }
        match self.rows.last() {
            Some(last) if last.task == task => Some(self.rows.len() - 1),
            _ => self.search(task),
        }
    }

    fn search(&self, task: TaskId) -> Option<usize>
        ensures { result ≡ last_place task.0 (tasks_of self.now) }
    {
        if self.rows.len() <= FEW {
            return place_in(&self.rows, task);
        }
        match self.others.place(task) {
            Some(place) => Some(FEW + place),
            None => place_in(self.first(), task),
        }
    }

    // The rows that are looked through.
    fn first(&self) -> &[Row]
        ensures { result.now ≡ take 4 self.now }
    {
        &self.rows[..self.rows.len().min(FEW)]
    }

    /// Puts a row: in the place of the last of its task, where that is not before the mark, and else
    /// behind all.
    pub(crate) fn put(&mut self, mark: usize, row: Row) -> Result<(), Memory>
        ensures ok { OnOk result (self.new ≡ put_past mark self.old row) }
        ensures err { OnErr result (self.new ≡ self.old) }
    {
        match self.place(row.task) {
            Some(place) if place >= mark => {
                let _ = self.replace(place, row);
                Ok(())
            }
            _ => self.push(row),
        }
    }

    fn push(&mut self, row: Row) -> Result<(), Memory>
        ensures ok { OnOk result (self.new ≡ self.old ++ row ∷ []) }
        ensures err { OnErr result (self.new ≡ self.old) }
    {
        make_room(&mut self.rows)?;
        if self.rows.len() >= FEW {
            self.others.push(row.task)?;
        }
        self.highest = self.highest.max(row.task.0);
        self.rows.push_reserved(row);
        Ok(())
    }

    /// Takes the row of a task, where it is the only one behind the mark.
    pub(crate) fn take_only(&mut self, mark: usize, task: TaskId) -> Option<Row>
        ensures { MatchOption result (self.new ≡ self.old)
            (λ row. IsOnly mark self.old self.new task.0 row) }
    {
        let last = self.rows.len().checked_sub(1)?;
        if last == mark && self.rows[last].task == task {
            self.pop()
        } else {
            None
        }
    }

    /// Takes the last row of a task, where it is not before the mark. A bare one is left in its place.
    pub(crate) fn lend(&mut self, alloc: Global, mark: usize, task: TaskId) -> Option<Row>
        ensures { MatchOption result (self.new ≡ self.old)
            (λ row. IsLent mark self.old self.new task.0 row) }
    {
        match self.place(task) {
            Some(place) if place >= mark => {
                let left = self.get(place)?.emptied(alloc);
                Some(self.replace(place, left))
            }
            _ => None,
        }
    }

    /// Activates the last row of a task to this state and owner, where it is not before the mark, and tells
    /// whether it did.
    pub(crate) fn activate(
        &mut self,
        mark: usize,
        task: TaskId,
        state: State,
        owner: Option<Person>,
    ) -> bool
        ensures there { IsTrue result
            → (row : Row) × (last_of task.0 self.old ≡ Some row)
            × (self.new ≡ put_past mark self.old (activated_to state owner row)) }
        ensures other { result ≡ false → self.new ≡ self.old }
    {
        match self.place(task) {
            Some(place) if place >= mark => {
                self.activate_at(place, state, owner);
                true
            }
            _ => false,
        }
    }

    fn activate_at(&mut self, place: usize, state: State, owner: Option<Person>)
        requires { place < length self.old }
        ensures { (row : Row) × (slice_get self.old place ≡ Some row)
            × (self.new ≡ slice_set self.old place (activated_to state owner row)) }
    {
        activate_row(&mut self.rows[place], state, owner);
    }

    // Puts a row in the place of one of the same task, which it gives.
    fn replace(&mut self, place: usize, row: Row) -> Row
        requires { option_map (λ r. r.task.0) (slice_get self.old place) ≡ Some row.task.0 }
        ensures there { slice_get self.old place ≡ Some result }
        ensures new { self.new ≡ slice_set self.old place row }
    {
        mem::replace(&mut self.rows[place], row)
    }

    /// Takes the last rows, so that as many are left. It takes no memory.
    pub(crate) fn truncate(&mut self, len: usize)
        requires { len ≤ length self.old }
        ensures { self.new ≡ take len self.old }
    {
        while self.rows.len() > len {
            let _ = self.pop();
        }
    }

    fn pop(&mut self) -> Option<Row>
        ensures { MatchOption result ((self.old ≡ []) × (self.new ≡ []))
            (λ row. self.old ≡ self.new ++ row ∷ []) }
    {
        let row = self.rows.pop()?;
        let _ = self.others.pop();
        Some(row)
    }

    /// The rows, in the order in which they were put.
    pub(crate) fn into_rows(self) -> Vec<Row>
        ensures { result.items ≡ self }
    {
        self.rows
    }
}

// Makes room for one more row. Most plans put one, and many none.
fn make_room(rows: &mut Vec<Row>) -> Result<(), Memory>
    ensures same { rows.new.items ≡ rows.old.items }
    ensures room { OnOk result (vec_len rows.new < vec_capacity rows.new) }
{
    if rows.is_empty() {
        rows.reserve_exact(1)?;
    } else {
        rows.reserve(1)?;
    }
    Ok(())
}

// The place of the last row of a task.
fn place_in(rows: &[Row], task: TaskId) -> Option<usize>
    ensures { result ≡ last_place task.0 (tasks_of rows.now) }
{
    let mut last = None;
    for (place, row) in rows.iter().enumerate() {
        if row.task == task {
            last = Some(place);
        }
    }
    last
}
