ghost use Rattle.std.specs.Prelude.{◌≡◌, IfOk, IsSome, Some, map, option_map};
ghost use Rattle.ht_lists.specs.Sheets as spec;
ghost use Rattle.ht_tree.specs.Families.{sub_tasks};
ghost use Rattle.ht_tree.specs.Soundness.{IsSoundRow};
ghost use Rattle.ht_tree.specs.Tables.{task_row};

use crate::naming::{comments_of, name_or_none, names_of, parts_of};
use ht_base::{Ids, Memory, Names, Sheet, TaskId};
use ht_tree::{Row, Tables};
use std::alloc::Global;

/// The sheet of a task, which must be there (WS-HumanTask 1.1, 7.1.1 "getTaskDetails"): its row, with
/// persons and the model by their names.
pub fn sheet(alloc: Global, tables: &Tables, task: TaskId) -> Result<Sheet, Memory>
    requires { IsSome (task_row tables.now.tables task.0) }
    ensures { IfOk result (λ s. option_map (spec.sheet_of tables.now.tables)
        (task_row tables.now.tables task.0) ≡ Some s) }
{
    match tables.row(task) {
        Some(row) => sheet_in(alloc, tables, row),
        None => unreachable!(),
    }
}

#[tactic(auto, using(crate::proofs::PartsShown::input_shown, crate::proofs::PartsShown::output_shown))]
fn sheet_in(alloc: Global, tables: &Tables, row: &Row) -> Result<Sheet, Memory>
    requires { IsSoundRow tables.now.tables row.now }
    ensures { IfOk result (λ s. s ≡ spec.sheet_of tables.now.tables row.now) }
{
    let roles = role_names(alloc, tables, row)?;
    let subs = subs_of(alloc, tables, row.task)?;
    let people = tables.people();
    let parent = match row.parent {
        Some((task, _)) => Some(task),
        None => None,
    };
    Ok(Sheet {
        administrators: roles.administrators,
        by_group: row.by_group,
        comments: comments_of(alloc, people, &row.comments)?,
        created: row.created,
        excluded_owners: roles.excluded_owners,
        fault: row.fault,
        initiator: people.name(row.initiator),
        input: parts_of(alloc, people, &row.input)?,
        last_owner: name_or_none(people, row.last_owner),
        model: tables.models().model(row.model).name,
        output: parts_of(alloc, people, &row.output)?,
        owner: name_or_none(people, row.owner),
        parent,
        potential_owners: roles.potential_owners,
        priority: row.priority,
        stakeholders: roles.stakeholders,
        started: row.started,
        state: row.state,
        subs,
        task: row.task,
        until: row.until,
        waits: row.waits,
    })
}

// The names of the persons of each role.
#[derive(Drop)]
struct RoleNames {
    administrators: Names,
    excluded_owners: Names,
    potential_owners: Names,
    stakeholders: Names,
}

fn role_names(alloc: Global, tables: &Tables, row: &Row) -> Result<RoleNames, Memory>
    requires { IsSoundRow tables.now.tables row.now }
    ensures { IfOk result (λ r. r ≡ spec.role_names tables.now.tables row.now) }
{
    let people = tables.people();
    Ok(RoleNames {
        administrators: names_of(alloc, people, &row.administrators)?,
        excluded_owners: names_of(alloc, people, &row.excluded_owners)?,
        potential_owners: names_of(alloc, people, &row.potential_owners)?,
        stakeholders: names_of(alloc, people, &row.stakeholders)?,
    })
}

fn subs_of(alloc: Global, tables: &Tables, task: TaskId) -> Result<Ids, Memory>
    ensures { IfOk result
        (λ ids. ids ≡ map (λ r. r.task) (sub_tasks task.0 tables.now.tables.rows)) }
{
    Ok(Ids::of(tables.subs(task).to_vec(alloc)?))
}
