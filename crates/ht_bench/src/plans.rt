ghost use Rattle.std.specs.Prelude.{OnOk};
ghost use Rattle.ht_tree.specs.Plans.{IsPlanOf};

use ht_base::{Person, TaskId, Values};
use ht_models::Models;
use ht_people::Directory;
use ht_samples::{MODELS, PEOPLE};
use ht_tree::{CreateRefusal, Plan, Tables, create};
use std::alloc::Global;

/// How far behind the row of one put or look stands that of the next.
const STRIDE: u64 = 7919;

/// The sum of the priorities that are seen.
pub(crate) fn measured(
    alloc: Global,
    tasks: u32,
    puts: u32,
    looks: u32,
) -> Result<u64, CreateRefusal> {
    let tables = tables(alloc).ok_or(CreateRefusal::Memory)?;
    let mut plan = Plan::begin(alloc)?;
    plan_tasks(alloc, &tables, &mut plan, tasks)?;
    plan.mark();
    put_again(alloc, &tables, &mut plan, puts)?;
    let sum = seen(&tables, &plan, looks);
    plan.back();
    Ok(sum)
}

fn tables(alloc: Global) -> Option<Tables> {
    let models = Models::read(alloc, MODELS.as_bytes()).ok()?;
    let people = Directory::read(alloc, PEOPLE.as_bytes()).ok()?;
    Tables::new(alloc, models, people).ok()
}

fn plan_tasks(
    alloc: Global,
    tables: &Tables,
    plan: &mut Plan,
    tasks: u32,
) -> Result<(), CreateRefusal>
    requires { IsPlanOf tables.now.tables plan.old }
    ensures { OnOk result (IsPlanOf tables.now.tables plan.new) }
{
    for _ in 0..tasks {
        plan_task(alloc, tables, plan)?;
    }
    Ok(())
}

fn plan_task(alloc: Global, tables: &Tables, plan: &mut Plan) -> Result<(), CreateRefusal>
    requires { IsPlanOf tables.now.tables plan.old }
    ensures { OnOk result (IsPlanOf tables.now.tables plan.new) }
{
    if tables.models().count() == 0 || tables.people().persons() == 0 {
        return Err(CreateRefusal::Memory);
    }
    if plan.rows(tables) == u32::MAX {
        return Err(CreateRefusal::TaskLimit);
    }
    let input = Values::new(alloc);
    let at = tables.last();
    create(alloc, tables, plan, 0, None, Person(0), input, None, at)?;
    Ok(())
}

fn put_again(
    alloc: Global,
    tables: &Tables,
    plan: &mut Plan,
    puts: u32,
) -> Result<(), CreateRefusal>
    requires { IsPlanOf tables.now.tables plan.old }
    ensures { OnOk result (IsPlanOf tables.now.tables plan.new) }
{
    for place in 0..puts {
        let task = scattered(place, plan.rows(tables));
        put_one(alloc, tables, plan, task, (place % 11) as u8)?;
    }
    Ok(())
}

fn put_one(
    alloc: Global,
    tables: &Tables,
    plan: &mut Plan,
    task: TaskId,
    priority: u8,
) -> Result<(), CreateRefusal>
    requires { IsPlanOf tables.now.tables plan.old }
    ensures { OnOk result (IsPlanOf tables.now.tables plan.new) }
{
    if plan.row(tables, task).is_none() {
        return Err(CreateRefusal::TaskLimit);
    }
    let mut row = plan.take(alloc, tables, task)?;
    row.priority = priority;
    if row.task.0 != task.0 || task.0 == 0 || task.0 > plan.rows(tables) {
        return Err(CreateRefusal::TaskLimit);
    }
    plan.put(tables, row)?;
    Ok(())
}

// The priorities that stand at as many places, added up.
fn seen(tables: &Tables, plan: &Plan, looks: u32) -> u64
    requires { IsPlanOf tables.now.tables plan.now }
{
    let rows = plan.rows(tables);
    let mut sum: u64 = 0;
    for place in 0..looks {
        if let Some(row) = plan.row(tables, scattered(place, rows)) {
            sum = sum.saturating_add(u64::from(row.priority));
        }
    }
    sum
}

// One of as many tasks, the first one where there is none.
fn scattered(place: u32, tasks: u32) -> TaskId {
    let behind = u64::from(place) * STRIDE % u64::from(tasks.max(1));
    TaskId(u32::try_from(behind).unwrap_or(0).saturating_add(1))
}
