ghost use Rattle.std.specs.Prelude.{◌<◌, ◌≤◌, length};
ghost use Rattle.ht_base.specs.Events.{IsCommand, op_of};
ghost use Rattle.ht_base.specs.Moment.{last_moment};
ghost use Rattle.ht_owner.specs.Acting.{Acts, IsAllowed};
ghost use Rattle.ht_tree.specs.Plans.{IsSoundPlan, planned};

use crate::effects::effect;
use crate::{ActRefusal, Follow};
use ht_base::{Command, Moment, Person, TaskId};
use ht_tree::{Plan, Tables};
use std::alloc::Global;

/// Plans a caller's command on one task, which the table of who may do what allows, and tells what
/// follows (WS-HumanTask 1.1, 7.1.1 "Participant operations"). The end of a task follows, and its
/// activation: until then its row has its state and its owner.
///
/// `at` is the moment at which it acts, at most the last there is. A refusal and want of memory leave the
/// plan as it was.
pub fn act(
    alloc: Global,
    tables: &Tables,
    plan: &mut Plan,
    id: TaskId,
    caller: Person,
    command: &Command,
    at: Moment,
) -> Result<Follow, ActRefusal>
    requires plan { IsSoundPlan tables.now.tables plan.old }
    requires caller { caller < length tables.now.tables.people.persons }
    requires allowed { IsAllowed (planned tables.now.tables plan.old) (op_of command.now) caller
        id.0 }
    requires command { IsCommand command.now }
    requires at { at.0 ≤ last_moment }
    ensures { Acts tables.now.tables plan.old plan.new id.0 caller at command.now result }
{
    let Some(row) = plan.row(tables, id) else {
        unreachable!()
    };
    let model = tables.models().model(row.model);
    let mut changed = row.copy(alloc)?;
    let done = effect(
        alloc,
        tables,
        plan,
        model,
        caller,
        at,
        command,
        &mut changed,
    );
    // Matched, since the check can't follow this error through `?`.
    match done {
        Ok(follow) => {
            plan.put(tables, changed)?;
            Ok(follow)
        }
        Err(refusal) => Err(refusal),
    }
}
