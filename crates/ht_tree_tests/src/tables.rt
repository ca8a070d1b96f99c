ghost use Rattle.std.specs.Prelude.{◌≡◌, None, OnOk};
ghost use Rattle.ht_base.specs.declared.operation.Op.TheVariants as op;
ghost use Rattle.ht_base.specs.declared.state.State.TheVariants.{Reserved};
ghost use Rattle.ht_tree.specs.declared.slot.Kept.TheVariants as kept;
ghost use Rattle.ht_tree.specs.Plans.{IsPlanOf, planned};
ghost use Rattle.ht_tree.specs.Soundness.{KeepsSound};

use ht_base::{Op, Person, State, TaskId, Values};
use ht_index::Tasks;
use ht_models::Models;
use ht_people::Directory;
use ht_samples::PEOPLE;
use ht_tree::{CreateRefusal, Kept, Plan, Slot, Tables, create};
use std::alloc::Global;
use std::process::Abort;
use std::test::Fail;

const MODELS: &[u8] =
    b"[[model]]\nname = \"unit\"\npotentialOwners = \"group('clerks')\"\nadministrators = \"user('cora')\"\nstakeholders = \"user('root')\"\n[[model]]\nname = \"shut\"\npotentialOwners = \"user('anna')\"\nexcludedOwners = \"user('anna')\"\nadministrators = \"user('cora')\"\n[[model]]\nname = \"bare\"\npotentialOwners = \"user('ben')\"\n";

const UNIT: u32 = 0;

const DAN: Person = Person(3);

fn tables(alloc: Global) -> Result<Tables, Fail> {
    let models = Models::read(alloc, MODELS)?;
    let people = Directory::read(alloc, PEOPLE.as_bytes())?;
    Ok(Tables::new(alloc, models, people)?)
}

// Plans a task of dan's, of a model and below a parent that are there.
fn planned(
    rt: &impl Abort,
    alloc: Global,
    tables: &Tables,
    plan: &mut Plan,
    model: u32,
    parent: Option<(TaskId, u32)>,
) -> Result<TaskId, CreateRefusal>
    requires { IsPlanOf tables.now.tables plan.old }
    ensures fits { OnOk result (IsPlanOf tables.now.tables plan.new) }
    ensures sound { OnOk result (parent ≡ None
        → KeepsSound (planned tables.now.tables plan.old) (planned tables.now.tables plan.new)) }
{
    assert!(rt; model < tables.models().count());
    assert!(rt; DAN.0 < tables.people().persons());
    let rows = plan.rows(tables);
    assert!(rt; rows < u32::MAX);
    if let Some((above, _)) = parent {
        assert!(rt; above.0 >= 1 && above.0 <= rows);
    }
    let at = tables.last();
    let input = Values::new(alloc);
    create(alloc, tables, plan, model, parent, DAN, input, None, at)
}

// A task of dan's.
pub(crate) fn created(
    rt: &impl Abort,
    alloc: Global,
    tables: &mut Tables,
    model: u32,
) -> Result<TaskId, CreateRefusal> {
    let mut plan = Plan::begin(alloc)?;
    let task = planned(rt, alloc, tables, &mut plan, model, None)?;
    tables.prepare(&plan)?;
    let at = tables.last();
    tables.commit(plan, at);
    Ok(task)
}

// Plans priorities of tasks that there would be, one after another.
fn prioritised(
    alloc: Global,
    tables: &Tables,
    plan: &mut Plan,
    priorities: &[(u32, u8)],
) -> Result<(), Fail>
    requires { IsPlanOf tables.now.tables plan.old }
    ensures { OnOk result (IsPlanOf tables.now.tables plan.new) }
{
    for (task, priority) in priorities {
        if plan.row(tables, TaskId(*task)).is_none() {
            return Err(Fail::from("no such task"));
        }
        let mut row = plan.take(alloc, tables, TaskId(*task))?;
        row.priority = *priority;
        if row.task.0 != *task || *task == 0 || *task > plan.rows(tables) {
            return Err(Fail::from("another number"));
        }
        plan.put(tables, row)?;
    }
    Ok(())
}

// Whether each of the tasks would have its priority.
fn have_priorities(tables: &Tables, plan: &Plan, priorities: &[(u32, u8)]) -> bool
    requires { IsPlanOf tables.now.tables plan.now }
{
    for (task, priority) in priorities {
        match plan.row(tables, TaskId(*task)) {
            Some(row) if row.priority == *priority => {}
            _ => return false,
        }
    }
    true
}

// Tables with six tasks of priority 5.
fn six_tasks(rt: &impl Abort, alloc: Global) -> Result<Tables, Fail> {
    let mut tables = tables(alloc)?;
    for _ in 0..6 {
        created(rt, alloc, &mut tables, UNIT)?;
    }
    Ok(tables)
}

fn rows_go_back(rt: &impl Abort, alloc: Global, tables: &Tables) -> Result<(), Fail> {
    let mut plan = Plan::begin(alloc)?;
    let puts = [(1, 1), (2, 2), (3, 3), (4, 4), (5, 6), (5, 0)];
    prioritised(alloc, tables, &mut plan, &puts)?;
    plan.mark();
    let puts = [(5, 7), (1, 8), (5, 9), (6, 3), (1, 10)];
    prioritised(alloc, tables, &mut plan, &puts)?;
    let behind = [(1, 10), (2, 2), (3, 3), (4, 4), (5, 9), (6, 3)];
    assert!(rt; have_priorities(tables, &plan, &behind));
    plan.back();
    let before = [(1, 1), (2, 2), (3, 3), (4, 4), (5, 0), (6, 5)];
    assert!(rt; have_priorities(tables, &plan, &before));
    Ok(())
}

#[test]
fn rows_that_are_put_again_go_back_to_the_mark(rt: HostRuntime) -> Result<(), Fail> {
    let tables = six_tasks(&rt, rt.alloc())?;
    rows_go_back(&rt, rt.alloc(), &tables)
}

// That a person's device has claimed the first task.
fn claim_of(person: u32, device: u8, number: u32) -> Slot
    ensures { result ≡ record {
      person = person;
      device = device;
      number = number;
      op = op.Claim;
      task = record { 0 = 1 };
      kept = kept.Done (record { 0 = 1 }) Reserved None;
    } }
{
    Slot {
        person: Person(person),
        device,
        number,
        op: Op::Claim,
        task: TaskId(1),
        kept: Kept::Done {
            task: TaskId(1),
            state: State::Reserved,
            owner: None,
        },
    }
}

fn claim_kept(
    alloc: Global,
    tables: &mut Tables,
    person: u32,
    device: u8,
    number: u32,
) -> Result<(), Fail> {
    let persons = tables.people().persons();
    if person >= persons || device > 15 || number == 0 || tables.rows() == 0 {
        return Err(Fail::from("no such person, device, number or task"));
    }
    let at = tables.last();
    let mut plan = Plan::begin(alloc)?;
    plan.keep(claim_of(person, device, number));
    tables.prepare(&plan)?;
    tables.commit(plan, at);
    Ok(())
}

// The commands that are kept, each of a person, a device and a number.
const KEPT: [(u32, u8, u32); 6] = [
    (1, 2, 7),
    (0, 3, 1),
    (2, 0, 4),
    (1, 0, 2),
    (1, 2, 8),
    (0, 15, 9),
];

// The number of the command that is the last of each person and device.
const LAST_KEPT: [(u32, u8, Option<u32>); 9] = [
    (0, 3, Some(1)),
    (0, 15, Some(9)),
    (1, 0, Some(2)),
    (1, 2, Some(8)),
    (2, 0, Some(4)),
    (0, 0, None),
    (1, 1, None),
    (2, 15, None),
    (3, 0, None),
];

fn are_last(rt: &impl Abort, tables: &Tables) {
    for (person, device, number) in LAST_KEPT {
        let slot = tables.slot(Person(person), device);
        let want = number.map(|number| claim_of(person, device, number));
        assert_eq!(rt; slot, want, "{person} {device}");
    }
}

#[test]
fn the_last_command_of_each_device_is_kept(rt: HostRuntime) -> Result<(), Fail> {
    let mut tables = tables(rt.alloc())?;
    created(&rt, rt.alloc(), &mut tables, UNIT)?;
    for (person, device, number) in KEPT {
        claim_kept(rt.alloc(), &mut tables, person, device, number)?;
    }
    are_last(&rt, &tables);
    Ok(())
}

// ---- the tasks of each person

// Whether these are the tasks of these numbers.
fn are_tasks(tasks: &Tasks, numbers: &[u32]) -> bool {
    let mut rest = tasks.rest();
    for number in numbers {
        match rest.next() {
            Some(task) => {
                if task.0 != *number {
                    return false;
                }
            }
            None => return false,
        }
    }
    rest.next().is_none()
}

// The person may take the first on with another, and nobody the second; the third is for one alone. All
// are dan's. Nobody owns one, since none is activated.
const TASKS: [(u32, &[u32]); 5] = [
    (0, &[1]),
    (1, &[1, 3]),
    (2, &[1, 2]),
    (3, &[1, 2, 3]),
    (4, &[1]),
];

#[test]
fn the_tasks_of_each_person_are_listed(rt: HostRuntime) -> Result<(), Fail> {
    let mut tables = tables(rt.alloc())?;
    for model in 0..3 {
        created(&rt, rt.alloc(), &mut tables, model)?;
    }
    for (person, numbers) in TASKS {
        let person = Person(person);
        assert!(rt; are_tasks(tables.rows_of(person), numbers), "{person:?}");
        assert!(rt;
            are_tasks(tables.live_rows_of(person), numbers),
            "{person:?}"
        );
        assert!(rt; are_tasks(tables.owned_by(person), &[]), "{person:?}");
    }
    assert!(rt; tables.subs(TaskId(1)).is_empty());
    Ok(())
}
