ghost use Rattle.std.specs.Prelude.{IfOk};
ghost use Rattle.ht_due.specs.Dues.{Ascends};
ghost use Rattle.ht_tree.specs.Plans.{IsPlanOf, IsSoundPlan, planned};
ghost use Rattle.ht_tree.specs.Soundness.{IsSound};

use crate::tables::created;
use ht_base::{Moment, Person, TaskId, Values};
use ht_due::{Due, DueQueue};
use ht_models::Models;
use ht_people::Directory;
use ht_samples::{MODELS, PEOPLE};
use ht_tree::{
    CreateRefusal, Plan, Tables, create, dues_after, dues_behind, is_due, least_changed,
};
use std::alloc::Global;
use std::process::Abort;
use std::test::Fail;

const TIMED: u32 = 8;

const LATE: u32 = 9;

const DAN: Person = Person(3);

fn tables_of(alloc: Global, models: &str) -> Result<Tables, Fail> {
    let models = Models::read(alloc, models.as_bytes())?;
    let people = Directory::read(alloc, PEOPLE.as_bytes())?;
    Ok(Tables::new(alloc, models, people)?)
}

// A moment, a task, a kind and a place.
type Line = (u64, u32, u8, u32);

fn due_of(line: Line) -> Due {
    let (moment, task, kind, place) = line;
    Due {
        at: Moment(moment),
        task: TaskId(task),
        kind,
        place,
    }
}

// The queue has just these dues, in this order.
fn are_due(rt: &impl Abort, queue: &DueQueue, lines: &[Line])
    ensures { Ascends queue.now.dues }
{
    let mut next = queue.least();
    for line in lines {
        let due = due_of(*line);
        assert_eq!(rt; next, Some(due));
        next = queue.after(due);
    }
    assert_eq!(rt; next, None);
}

// ---- in step

// A plan of a task of dan's that waits up to 5000.
fn planned_waiting(
    rt: &impl Abort,
    alloc: Global,
    tables: &Tables,
    model: u32,
) -> Result<Plan, CreateRefusal>
    ensures fits { IfOk result (λ plan. IsPlanOf tables.now.tables plan) }
    ensures sound { IfOk result (λ plan. IsSound (planned tables.now.tables plan)) }
{
    assert!(rt; model < tables.models().count());
    assert!(rt; DAN.0 < tables.people().persons());
    assert!(rt; tables.rows() < u32::MAX);
    let mut plan = Plan::begin(alloc)?;
    let at = tables.last();
    let input = Values::new(alloc);
    let waits = Some(Moment(5000));
    create(alloc, tables, &mut plan, model, None, DAN, input, waits, at)?;
    Ok(plan)
}

const IN_ORDER: [Line; 5] = [
    (5000, 2, 2, 0),
    (10_000, 1, 3, 0),
    (10_000, 1, 3, 1),
    (10_000, 3, 3, 0),
    (10_000, 3, 3, 1),
];

#[test]
fn the_dues_of_all_tasks_are_in_order(rt: HostRuntime) -> Result<(), Fail> {
    let mut tables = tables_of(rt.alloc(), MODELS)?;
    are_due(&rt, tables.due(), &[]);
    for model in [TIMED, LATE, TIMED] {
        created(&rt, rt.alloc(), &mut tables, model)?;
    }
    are_due(&rt, tables.due(), &IN_ORDER);
    Ok(())
}

// ---- of a plan

// Of task 2, which would wait and has a start deadline.
const NEW: [Line; 2] = [(5000, 2, 0, 0), (5000, 2, 2, 0)];

// With the two completion deadlines of task 1, behind them.
const ALL: [Line; 4] = [
    (5000, 2, 0, 0),
    (5000, 2, 2, 0),
    (10_000, 1, 3, 0),
    (10_000, 1, 3, 1),
];

const NONE: [Line; 5] = [
    (4999, 2, 0, 0),
    (5000, 1, 0, 0),
    (5000, 2, 1, 0),
    (5000, 2, 2, 1),
    (5000, 3, 0, 0),
];

// Whether each of these would be due after the plan.
fn would_be_due(rt: &impl Abort, tables: &Tables, plan: &Plan, lines: &[Line], would: bool)
    requires plan { IsSoundPlan tables.now.tables plan.now }
{
    for line in lines {
        let due = due_of(*line);
        assert_eq!(rt; is_due(tables, plan, due), would, "{due:?}");
    }
}

fn are_found(rt: &impl Abort, found: &[Due], lines: &[Line]) {
    assert_eq!(rt; found.len(), lines.len());
    for (due, line) in found.iter().zip(lines) {
        assert_eq!(rt; *due, due_of(*line));
    }
}

fn changed_dues_are_found(
    rt: &impl Abort,
    alloc: Global,
    tables: &Tables,
    plan: &Plan,
) -> Result<(), Fail>
    requires plan { IsSoundPlan tables.now.tables plan.now }
{
    let after = dues_after(alloc, tables, plan)?;
    are_found(rt, after.as_slice(), &NEW);
    assert_eq!(rt; least_changed(tables, plan), after.first().copied());
    Ok(())
}

fn dues_are_found_behind(
    rt: &impl Abort,
    alloc: Global,
    tables: &Tables,
    plan: &Plan,
) -> Result<(), Fail>
    requires plan { IsSoundPlan tables.now.tables plan.now }
{
    let all = dues_behind(alloc, tables, plan, 0)?;
    are_found(rt, all.as_slice(), &ALL);
    let new = dues_behind(alloc, tables, plan, 1)?;
    are_found(rt, new.as_slice(), &NEW);
    Ok(())
}

#[test]
fn a_plan_tells_what_would_be_due(rt: HostRuntime) -> Result<(), Fail> {
    let alloc = rt.alloc();
    let mut tables = tables_of(alloc, MODELS)?;
    created(&rt, alloc, &mut tables, TIMED)?;
    let plan = planned_waiting(&rt, alloc, &tables, LATE)?;
    changed_dues_are_found(&rt, alloc, &tables, &plan)?;
    dues_are_found_behind(&rt, alloc, &tables, &plan)?;
    would_be_due(&rt, &tables, &plan, &ALL, true);
    would_be_due(&rt, &tables, &plan, &NONE, false);
    Ok(())
}
