ghost use Rattle.std.specs.Prelude.{◌≡◌, ◌≤◌};
ghost use Rattle.ht_base.specs.declared.operation.Op.TheVariants as op;
ghost use Rattle.ht_base.specs.Moment.{last_moment};
ghost use Rattle.ht_machine.specs.Commands.{MakesByHand};
ghost use Rattle.ht_machine.specs.Planning.{Tries};
ghost use Rattle.ht_owner.specs.Acting.{IsAllowed};
ghost use Rattle.ht_tree.specs.Plans.{IsSoundPlan, planned};

use ht_base::{Moment, Name, Person, Refusal, TaskId};
use ht_compose::{entry_to_make, instantiate};
use ht_owner::ActRefusal;
use ht_tree::{Plan, Tables};
use std::alloc::Global;

/// Plans the sub task of the entry with this name, where it may be made by hand, and gives its number
/// (WS-HumanTask 1.1, 4.7). The caller may make sub tasks of the task.
pub(crate) fn make_sub_task(
    alloc: Global,
    tables: &Tables,
    plan: &mut Plan,
    caller: Person,
    at: Moment,
    task: TaskId,
    sub: Name,
) -> Result<TaskId, ActRefusal>
    requires plan { IsSoundPlan tables.now.tables plan.old }
    requires allowed { IsAllowed (planned tables.now.tables plan.old) op.InstantiateSubTask caller
        task.0 }
    requires at { at.0 ≤ last_moment }
    ensures { Tries tables.now.tables plan.old plan.new
        (MakesByHand (planned tables.now.tables plan.old) at.0 task.0 sub) result }
{
    let Some(entry) = entry_to_make(alloc, tables, plan, task, sub)? else {
        return Err(ActRefusal::Refused(Refusal::SubRefused(sub)));
    };
    let new = instantiate(alloc, tables, plan, task, entry, at)?;
    Ok(new)
}
