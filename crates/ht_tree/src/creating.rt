ghost use Rattle.std.specs.Prelude.{◌≡◌, ◌<◌, ◌≤◌, ◌+◌, ◌^◌, false, true, [], IfOk, IfSome, IsTrue, OnErr, OnOk, None, Some, Err, length, option_map, pos};
ghost use Rattle.std.specs.Option.{option_map_or};
ghost use Rattle.ht_base.specs.Moment.{last_moment};
ghost use Rattle.ht_expr.specs.AssignmentKinds.{Assigns};
ghost use Rattle.ht_value.specs.Environment.{has_parts};
ghost use Rattle.ht_expr.specs.Kinds.{Declared};
ghost use Rattle.ht_expr.specs.Shown.{shown};
ghost use Rattle.ht_value.specs.Values.{a_number, value};
ghost use Rattle.ht_models.specs.Kinded.{IsKinded, parts_of};
ghost use Rattle.ht_models.specs.Model.{ModelOf};
ghost use Rattle.ht_models.specs.Shown.{model_of};
ghost use Rattle.ht_finding.specs.Assigning.{potential_owners, resolved, sight};
ghost use Rattle.ht_tree.specs.Creating as spec;
ghost use Rattle.ht_tree.specs.Creating.{IsInput, is_full, level_of, role_or, sight_by};
ghost use Rattle.ht_tree.specs.Families.{MayCome};
ghost use Rattle.ht_tree.specs.Plans.{GoesByRow, IsPlanOf, planned};
ghost use Rattle.ht_tree.specs.Soundness.{KeepsSound};
ghost use Rattle.ht_tree.specs.Tables.{model_at};

use crate::{Comments, Plan, Row, Tables, Taken};
use ht_base::{
    LOWEST_PRIORITY, MIDDLE_PRIORITY, MOST_TASKS, Memory, Moment, Person, Persons, State, TaskId,
    Values,
};
use ht_expr::Assign;
use ht_finding::{found, without};
use ht_models::Model;
use ht_people::Directory;
use ht_value::{Env, Subs, int};
use std::alloc::Global;
use thiserror::Error;

/// Why no task is created.
#[derive(Clone, Copy, Debug, PartialEq, Eq, Error)]
pub enum CreateRefusal {
    #[error("out of memory")]
    Memory,
    /// With the whole tree of the new task there would be more than there may be.
    #[error("too many tasks")]
    TaskLimit,
}

impl From<Memory> for CreateRefusal {
    ghost use Rattle.std.specs.Prelude.{◌≡◌};
    ghost use Rattle.ht_tree.specs.declared.creating.CreateRefusal.TheVariants as refusal;

    ghost from_gives = { λ _ refused. refused ≡ refusal.Memory };

    fn from(_memory: Memory) -> CreateRefusal {
        CreateRefusal::Memory
    }
}

/// Puts the row of a new task into the plan, before it is activated, and gives its number
/// (WS-HumanTask 1.1, 4.10): first its priority is found, and then, at that priority, the persons of
/// each role. `input` has values of parts that the model declares. `parent` is the parent of a sub
/// task, with the place among its sub entries: a sub task takes the parent's administrators or
/// stakeholders where its model gives none, and the limit isn't tested for it.
#[allow(clippy::too_many_arguments)]
pub fn create(
    alloc: Global,
    tables: &Tables,
    plan: &mut Plan,
    model: u32,
    parent: Option<(TaskId, u32)>,
    initiator: Person,
    input: Values,
    waits: Option<Moment>,
    at: Moment,
) -> Result<TaskId, CreateRefusal>
    requires plan { IsPlanOf tables.now.tables plan.old }
    requires number { length (planned tables.now.tables plan.old).rows + 1 < 2 ^ 32 }
    requires model { model < length tables.now.tables.models }
    requires parent { IfSome parent
        (λ p. (1 ≤ p.0.0) × (p.0.0 ≤ length (planned tables.now.tables plan.old).rows)) }
    requires initiator { initiator < length tables.now.tables.people.persons }
    requires input { IsInput (length tables.now.tables.people.persons)
        (model_at tables.now.tables model) input }
    ensures id { IfOk result (λ id. id.0 ≡ length (planned tables.now.tables plan.old).rows + 1) }
    ensures goes { OnOk result ((m : ModelOf) × (model_at tables.now.tables model ≡ Some m)
        × GoesByRow tables.now.tables plan.old plan.new (spec.new_row
        (planned tables.now.tables plan.old) m model parent initiator input waits at)) }
    ensures sound { OnOk result (MayCome tables.now.tables.models
        (planned tables.now.tables plan.old).rows model parent → at.0 ≤ last_moment
        → IfSome waits (λ m. m.0 ≤ last_moment)
        → KeepsSound (planned tables.now.tables plan.old) (planned tables.now.tables plan.new)) }
    ensures room { OnOk result
        (parent ≡ None → is_full (planned tables.now.tables plan.old) model ≡ false) }
    ensures full { result ≡ Err CreateRefusal.TaskLimit
        → (parent ≡ None) × (is_full (planned tables.now.tables plan.old) model ≡ true) }
    ensures err { OnErr result (plan.new ≡ plan.old) }
{
    let size = u128::from(tables.models().model(model).size);
    if parent.is_none() && plan.size(tables) + size > MOST_TASKS {
        return Err(CreateRefusal::TaskLimit);
    }
    let task = TaskId(plan.rows(tables) + 1);
    let row = new_row(
        alloc, tables, plan, task, model, parent, initiator, input, waits, at,
    )?;
    plan.put(tables, row)?;
    Ok(task)
}

// The row of a new task. It is seen by expressions before any role is set.
#[allow(clippy::too_many_arguments)]
fn new_row(
    alloc: Global,
    tables: &Tables,
    plan: &Plan,
    task: TaskId,
    model: u32,
    parent: Option<(TaskId, u32)>,
    initiator: Person,
    input: Values,
    waits: Option<Moment>,
    at: Moment,
) -> Result<Row, Memory>
    requires plan { IsPlanOf tables.now.tables plan.now }
    requires task { task.0 ≡ length (planned tables.now.tables plan.now).rows + 1 }
    requires model { model < length tables.now.tables.models }
    requires parent { IfSome parent
        (λ p. (1 ≤ p.0.0) × (p.0.0 ≤ length (planned tables.now.tables plan.now).rows)) }
    requires initiator { initiator < length tables.now.tables.people.persons }
    requires input { IsInput (length tables.now.tables.people.persons)
        (model_at tables.now.tables model) input }
    ensures { IfOk result (λ row.
        IfSome (model_at tables.now.tables model) (λ m.
        row ≡ spec.new_row (planned tables.now.tables plan.now) m model parent initiator input
        waits at)) }
{
    let m = tables.models().model(model);
    let above = parent_row(tables, plan, parent);
    let env = first_env(alloc, input, initiator);
    let priority = priority_of(m, &env);
    let env = at_priority(env, priority);
    let roles = roles_of(alloc, tables.people(), &env, m, above)?;
    let (input, output) = values_of(env);
    Ok(Row {
        task,
        parent,
        model,
        state: State::Created,
        owner: None,
        last_owner: None,
        initiator,
        potential_owners: roles.potential_owners,
        excluded_owners: roles.excluded_owners,
        administrators: roles.administrators,
        stakeholders: roles.stakeholders,
        by_group: !m.potential_owners.individual(),
        started: false,
        priority,
        input,
        output,
        created: at,
        waits,
        until: None,
        fault: None,
        taken: Taken::new(alloc),
        comments: Comments::new(alloc),
    })
}

// What the expression of a new task's priority sees.
fn first_env(alloc: Global, input: Values, initiator: Person) -> Env
    ensures { result ≡ spec.first_env input initiator }
{
    Env {
        input,
        output: Values::new(alloc),
        priority: i64::from(MIDDLE_PRIORITY),
        initiator,
        subs: Subs::new(alloc),
    }
}

fn at_priority(env: Env, priority: u8) -> Env
    ensures { result ≡ record env { priority = pos priority } }
{
    Env {
        priority: i64::from(priority),
        ..env
    }
}

fn values_of(env: Env) -> (Values, Values)
    ensures { result ≡ (env.input, env.output) }
{
    let Env { input, output, .. } = env;
    (input, output)
}

// The priority that a model says, in this environment.
fn priority_of(model: &Model, env: &Env) -> u8
    requires kinds { IsKinded model.now }
    requires parts { IsTrue
        (has_parts (parts_of model.now.input.items model.now.output.items) env.now) }
    ensures { result ≡ level_of (value (parts_of model.now.input.items model.now.output.items)
        env.now (model_of model.now).priority) }
{
    match &model.priority {
        Some(expression) => level(int(expression, env)),
        None => MIDDLE_PRIORITY,
    }
}

fn level(number: i64) -> u8
    ensures { result ≡ level_of (a_number number) }
{
    if number < 0 {
        0
    } else if number > i64::from(LOWEST_PRIORITY) {
        LOWEST_PRIORITY
    } else {
        number as u8
    }
}

/// The persons of the roles of a new task.
#[derive(Drop)]
struct Roles {
    potential_owners: Persons,
    excluded_owners: Persons,
    administrators: Persons,
    stakeholders: Persons,
}

fn roles_of(
    alloc: Global,
    people: &Directory,
    env: &Env,
    model: &Model,
    above: Option<&Row>,
) -> Result<Roles, Memory>
    requires initiator { env.now.initiator < length people.now.persons }
    requires kinds { IsKinded model.now }
    requires parts { IsTrue
        (has_parts (parts_of model.now.input.items model.now.output.items) env.now) }
    ensures potential_owners { let s = sight_by (model_of model.now) env.now in
        IfOk result (λ r.
        r.potential_owners ≡ potential_owners people.now s (shown model.now.potential_owners)
        (resolved people.now s (shown model.now.excluded_owners))) }
    ensures excluded_owners { let s = sight_by (model_of model.now) env.now in
        IfOk result
        (λ r. r.excluded_owners ≡ resolved people.now s (shown model.now.excluded_owners)) }
    ensures administrators { let s = sight_by (model_of model.now) env.now in
        IfOk result (λ r.
        r.administrators ≡ role_or people.now s (option_map shown model.now.administrators)
        (option_map_or (λ r. r.now.administrators) above.entry [])) }
    ensures stakeholders { let s = sight_by (model_of model.now) env.now in
        IfOk result (λ r.
        r.stakeholders ≡ role_or people.now s (option_map shown model.now.stakeholders)
        (option_map_or (λ r. r.now.stakeholders) above.entry [])) }
{
    let candidates = found(alloc, people, env, &model.potential_owners)?;
    let excluded_owners = found(alloc, people, env, &model.excluded_owners)?;
    Ok(Roles {
        potential_owners: without(alloc, candidates, &excluded_owners)?,
        excluded_owners,
        administrators: role(
            alloc,
            people,
            env,
            &model.administrators,
            administrators_of(above),
        )?,
        stakeholders: role(
            alloc,
            people,
            env,
            &model.stakeholders,
            stakeholders_of(above),
        )?,
    })
}

// The row of the parent, of a sub task.
fn parent_row<'a>(
    tables: &'a Tables,
    plan: &'a Plan,
    parent: Option<(TaskId, u32)>,
) -> Option<&'a Row>
    requires { IsPlanOf tables.now.tables plan.now }
    ensures { option_map (λ r. r.now) result
        ≡ spec.parent_row (planned tables.now.tables plan.now) parent }
{
    let (id, _) = parent?;
    plan.row(tables, id)
}

// The persons of a role, by its assignment or as the parent has them.
fn role(
    alloc: Global,
    people: &Directory,
    env: &Env,
    assign: &Option<Assign>,
    inherited: Option<&Persons>,
) -> Result<Persons, Memory>
    requires initiator { env.now.initiator < length people.now.persons }
    requires kinds { (kinds : Declared) × IfSome assign.now (Assigns kinds)
        × IsTrue (has_parts kinds env.now) }
    ensures { IfOk result (λ ps.
        (kinds : Declared) → IfSome assign.now (Assigns kinds)
        → ps ≡ role_or people.now (sight kinds env.now) (option_map shown assign.now)
        (option_map_or (λ p. p.now) inherited.entry [])) }
{
    match assign {
        Some(assign) => found(alloc, people, env, assign),
        None => match inherited {
            Some(persons) => Ok(persons.copy(alloc)?),
            None => Ok(Persons::new(alloc)),
        },
    }
}

fn administrators_of(above: Option<&Row>) -> Option<&Persons>
    ensures { option_map (λ p. p.now) result ≡ option_map (λ r. r.now.administrators) above.entry }
{
    Some(&above?.administrators)
}

fn stakeholders_of(above: Option<&Row>) -> Option<&Persons>
    ensures { option_map (λ p. p.now) result ≡ option_map (λ r. r.now.stakeholders) above.entry }
{
    Some(&above?.stakeholders)
}
