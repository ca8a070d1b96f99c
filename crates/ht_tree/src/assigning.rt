ghost use Rattle.std.specs.Prelude.{◌≡◌, [], IfOk, IfSome, OnOk, Some, map};
ghost use Rattle.ht_expr.specs.AssignmentKinds.{Assigns};
ghost use Rattle.ht_expr.specs.Shown.{shown};
ghost use Rattle.ht_finding.specs.Assigning.{resolved};
ghost use Rattle.ht_models.specs.Kinded.{parts_of};
ghost use Rattle.ht_tree.specs.Creating.{seen_in, sees};
ghost use Rattle.ht_tree.specs.Families as families;
ghost use Rattle.ht_tree.specs.Plans.{IsSoundPlan, planned};
ghost use Rattle.ht_tree.specs.Soundness.{Fits};
ghost use Rattle.ht_tree.specs.Tables.{directory, model_of};

use crate::{Plan, Row, Tables, sub_tasks};
use ht_base::{Memory, Persons, TaskId, Values};
use ht_expr::Assign;
use ht_finding::found;
use ht_value::{Env, Subs};
use std::alloc::Global;

/// The environment of a row, which expressions and assignments see: with the sub tasks as they would be
/// after the plan. Where the model of the row's task has sub entries, the rows of all tasks behind the
/// task are looked at.
pub fn env(alloc: Global, tables: &Tables, plan: &Plan, row: &Row) -> Result<Env, Memory>
    requires plan { IsSoundPlan tables.now.tables plan.now }
    requires row { Fits tables.now.tables row.now }
    ensures { IfOk result (λ e. e ≡ sees (planned tables.now.tables plan.now).rows row.now) }
{
    let subs = sub_tasks(alloc, tables, plan, row.task)?;
    env_with(alloc, tables, plan, row, &subs)
}

/// The same, where the numbers of the sub tasks of the row's task are known.
pub fn env_with(
    alloc: Global,
    tables: &Tables,
    plan: &Plan,
    row: &Row,
    subs: &[TaskId],
) -> Result<Env, Memory>
    requires plan { IsSoundPlan tables.now.tables plan.now }
    requires row { Fits tables.now.tables row.now }
    requires subs { subs.now
        ≡ map (λ r. r.task)
        (families.sub_tasks row.now.task.0 (planned tables.now.tables plan.now).rows) }
    ensures { IfOk result (λ e. e ≡ sees (planned tables.now.tables plan.now).rows row.now) }
{
    Ok(Env {
        input: row.input.copy(alloc)?,
        output: row.output.copy(alloc)?,
        priority: i64::from(row.priority),
        initiator: row.initiator,
        subs: subs_of(alloc, tables, plan, row.task, subs)?,
    })
}

// The sub tasks of a task, which have these numbers, as expressions see them.
fn subs_of(
    alloc: Global,
    tables: &Tables,
    plan: &Plan,
    task: TaskId,
    ids: &[TaskId],
) -> Result<Subs, Memory>
    requires plan { IsSoundPlan tables.now.tables plan.now }
    requires ids { ids.now
        ≡ map (λ r. r.task) (families.sub_tasks task.0 (planned tables.now.tables plan.now).rows) }
    ensures { IfOk result (λ subs.
        subs ≡ map (λ s. (s.state, s.output))
        (families.sub_tasks task.0 (planned tables.now.tables plan.now).rows)) }
{
    let mut subs = Subs::new(alloc);
    for id in ids {
        let Some(row) = plan.row(tables, *id) else {
            unreachable!()
        };
        let output = row.output.copy(alloc)?;
        subs.push(row.state, output)?;
    }
    Ok(subs)
}

/// The persons whom an assignment of the row's model finds for the row, in ascending order
/// (WS-HumanTask 1.1, 3.5).
pub fn resolve(
    alloc: Global,
    tables: &Tables,
    plan: &Plan,
    row: &Row,
    assign: &Assign,
) -> Result<Persons, Memory>
    requires plan { IsSoundPlan tables.now.tables plan.now }
    requires row { Fits tables.now.tables row.now }
    requires assign { IfSome (model_of tables.now.tables row.now)
        (λ m. Assigns (parts_of m.input m.output) assign.now) }
    ensures { IfOk result (λ persons.
        IfSome (model_of tables.now.tables row.now) (λ m.
        persons ≡ resolved (directory tables.now.tables)
        (seen_in m (planned tables.now.tables plan.now).rows row.now) (shown assign.now))) }
{
    let mut seen = None;
    resolve_seen(alloc, tables, plan, row, assign, &mut seen)
}

/// The same, for several assignments of one row: its environment is made once, where the first looks at
/// a value.
pub fn resolve_seen(
    alloc: Global,
    tables: &Tables,
    plan: &Plan,
    row: &Row,
    assign: &Assign,
    seen: &mut Option<Env>,
) -> Result<Persons, Memory>
    requires plan { IsSoundPlan tables.now.tables plan.now }
    requires row { Fits tables.now.tables row.now }
    requires assign { IfSome (model_of tables.now.tables row.now)
        (λ m. Assigns (parts_of m.input m.output) assign.now) }
    requires seen { IfSome seen.old
        (λ e. e ≡ sees (planned tables.now.tables plan.now).rows row.now) }
    ensures persons { IfOk result (λ persons.
        IfSome (model_of tables.now.tables row.now) (λ m.
        persons ≡ resolved (directory tables.now.tables)
        (seen_in m (planned tables.now.tables plan.now).rows row.now) (shown assign.now))) }
    ensures seen { OnOk result
        (IfSome seen.new (λ e. e ≡ sees (planned tables.now.tables plan.now).rows row.now)) }
{
    if assign.is_plain() {
        return found(
            alloc,
            tables.people(),
            &env_without_values(alloc, row),
            assign,
        );
    }
    see(alloc, tables, plan, row, seen)?;
    match seen {
        Some(env) => found(alloc, tables.people(), env, assign),
        None => unreachable!(),
    }
}

/// Makes the environment of a row, where it isn't made yet.
pub fn see(
    alloc: Global,
    tables: &Tables,
    plan: &Plan,
    row: &Row,
    seen: &mut Option<Env>,
) -> Result<(), Memory>
    requires plan { IsSoundPlan tables.now.tables plan.now }
    requires row { Fits tables.now.tables row.now }
    requires seen { IfSome seen.old
        (λ e. e ≡ sees (planned tables.now.tables plan.now).rows row.now) }
    ensures { OnOk result
        (seen.new ≡ Some (sees (planned tables.now.tables plan.now).rows row.now)) }
{
    if seen.is_none() {
        *seen = Some(env(alloc, tables, plan, row)?);
    }
    Ok(())
}

// For an assignment that looks at no value, so that none is copied.
fn env_without_values(alloc: Global, row: &Row) -> Env
    ensures initiator { result.initiator ≡ row.now.initiator }
    ensures input { result.input ≡ [] }
    ensures output { result.output ≡ [] }
{
    Env {
        input: Values::new(alloc),
        output: Values::new(alloc),
        priority: i64::from(row.priority),
        initiator: row.initiator,
        subs: Subs::new(alloc),
    }
}
