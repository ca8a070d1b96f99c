ghost use Rattle.std.specs.Prelude.{◌≡◌, IfOk, OnErr};
ghost use Rattle.ht_base.specs.declared.moment.Moment.{Moment};
ghost use Rattle.ht_compose.specs.Items.Item.{Activate};
ghost use Rattle.ht_compose.specs.Running.{Acts};
ghost use Rattle.ht_tree.specs.Activation.{activated_to};
ghost use Rattle.ht_tree.specs.Plans.{IsSoundPlan};
ghost use Rattle.ht_compose.specs.Items as spec;

use crate::item::{Item, alone};
use ht_base::{Memory, Person, State, TaskId};
use ht_tree::{Plan, Row, Tables, owner_by, state_by};
use std::alloc::Global;

/// Plans the activation of a task, where it is only created (WS-HumanTask 1.1, 4.10.1).
pub(crate) fn activate(
    alloc: Global,
    tables: &Tables,
    plan: &mut Plan,
    task: TaskId,
) -> Result<Vec<Item>, Memory>
    requires plan { IsSoundPlan tables.now.tables plan.old }
    ensures acts { IfOk result (λ puts.
        (at : Moment) → Acts tables.now.tables plan.old plan.new at (Activate task.0) puts.items) }
    ensures marked { OnErr result (plan.new.marked ≡ plan.old.marked) }
{
    let Some(row) = plan.row(tables, task) else {
        return Ok(Vec::new(alloc));
    };
    if row.state != State::Created {
        return Ok(Vec::new(alloc));
    }
    let needs_owner = tables.models().model(row.model).owner_required;
    let (state, owner) = activation(row, needs_owner);
    plan.activate(alloc, tables, task, state, owner)?;
    if needs_owner {
        Ok(Vec::new(alloc))
    } else {
        alone(alloc, Item::Begin(task))
    }
}

// The state and the owner that a row gets by its activation.
fn activation(row: &Row, needs_owner: bool) -> (State, Option<Person>)
    ensures { activated_to result.0 result.1 row.now
        ≡ spec.activated_as needs_owner row.now.potential_owners row.now }
{
    if needs_owner {
        let owners = &row.potential_owners;
        (state_by(owners, row.state), owner_by(owners))
    } else {
        (State::InProgress, row.owner)
    }
}
