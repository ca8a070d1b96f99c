ghost use Rattle.std.specs.Prelude.{◌≡◌, ◌≤◌, OnOk};
ghost use Rattle.ht_base.specs.Moment.{last_moment};
ghost use Rattle.ht_machine.specs.Following.{IsFollowed};
ghost use Rattle.ht_compose.specs.Reaching.{IsTask};
ghost use Rattle.ht_owner.specs.Acting.{FollowIsFinal};
ghost use Rattle.ht_tree.specs.Plans.{IsSoundPlan, planned};

use ht_base::{Memory, Moment, TaskId};
use ht_compose::{activate, begin, close, free, hold};
use ht_owner::Follow;
use ht_tree::{Plan, Tables};
use std::alloc::Global;

/// Plans what follows on a task, on those below it and on those above, once an operation has changed
/// it at a moment.
pub(crate) fn follow(
    alloc: Global,
    tables: &Tables,
    plan: &mut Plan,
    at: Moment,
    task: TaskId,
    next: Follow,
) -> Result<(), Memory>
    requires plan { IsSoundPlan tables.now.tables plan.old }
    requires there { IsTask (planned tables.now.tables plan.old) task.0 }
    requires at { at.0 ≤ last_moment }
    requires ends { FollowIsFinal next }
    ensures { OnOk result (IsFollowed tables.now.tables plan.old plan.new at task.0 next) }
{
    match next {
        Follow::Nothing => Ok(()),
        Follow::Began => begin(alloc, tables, plan, task, at),
        Follow::Activate => activate(alloc, tables, plan, task, at),
        Follow::Held => hold(alloc, tables, plan, task),
        Follow::Freed => free(alloc, tables, plan, task, at),
        Follow::Close(end) => close(alloc, tables, plan, task, end, at),
    }
}
