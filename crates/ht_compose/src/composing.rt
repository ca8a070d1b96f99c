ghost use Rattle.std.specs.Prelude.{◌≡◌, ◌+◌, ◌≤◌, ◌∷◌, [], IfOk, IsTrue, OnOk, length, OnErr};
ghost use Rattle.ht_base.specs.Moment.{last_moment};
ghost use Rattle.ht_compose.specs.Composing.{IsSubTask, IsToMake};
ghost use Rattle.ht_compose.specs.Items.Item.{Activate, Begin, Close, Make};
ghost use Rattle.ht_compose.specs.Running.{Runs};
ghost use Rattle.ht_base.specs.State.{is_final};
ghost use Rattle.ht_tree.specs.Plans.{IsSoundPlan, planned};

use crate::item::Item;
use crate::running::{count_models, run};
use ht_base::{Memory, Moment, State, TaskId};
use ht_tree::{Plan, Tables};
use std::alloc::Global;

/// Plans the activation of a task, where it is only created, and all that follows of it (WS-HumanTask
/// 1.1, 4.7 and 4.10). `at` is the moment at which its sub tasks are created. After want of memory the
/// plan holds some of it.
pub fn activate(
    alloc: Global,
    tables: &Tables,
    plan: &mut Plan,
    task: TaskId,
    at: Moment,
) -> Result<(), Memory>
    requires plan { IsSoundPlan tables.now.tables plan.old }
    requires at { at.0 ≤ last_moment }
    ensures runs { OnOk result
        (Runs tables.now.tables plan.old plan.new at (Activate task.0 ∷ [])) }
    ensures marked { OnErr result (plan.new.marked ≡ plan.old.marked) }
{
    run(alloc, tables, plan, at, Item::Activate(task))
}

/// Plans that a task in progress has begun, and all that follows of it: its first sub tasks are made
/// where it hadn't begun before and they come by themselves, and it is checked whether it finishes
/// (WS-HumanTask 1.1, 4.7 and 4.8). After want of memory the plan holds some of it.
pub fn begin(
    alloc: Global,
    tables: &Tables,
    plan: &mut Plan,
    task: TaskId,
    at: Moment,
) -> Result<(), Memory>
    requires plan { IsSoundPlan tables.now.tables plan.old }
    requires at { at.0 ≤ last_moment }
    ensures runs { OnOk result (Runs tables.now.tables plan.old plan.new at (Begin task.0 ∷ [])) }
    ensures marked { OnErr result (plan.new.marked ≡ plan.old.marked) }
{
    run(alloc, tables, plan, at, Item::Begin(task))
}

/// Plans that a task that hasn't ended does so in this final state with all below it, and all that
/// follows of it for the tasks above (WS-HumanTask 1.1, 4.7, 4.8 and 4.10). After want of memory the plan
/// holds some of it.
pub fn close(
    alloc: Global,
    tables: &Tables,
    plan: &mut Plan,
    task: TaskId,
    end: State,
    at: Moment,
) -> Result<(), Memory>
    requires plan { IsSoundPlan tables.now.tables plan.old }
    requires end { IsTrue (is_final end) }
    requires at { at.0 ≤ last_moment }
    ensures runs { OnOk result
        (Runs tables.now.tables plan.old plan.new at (Close task.0 end ∷ [])) }
    ensures marked { OnErr result (plan.new.marked ≡ plan.old.marked) }
{
    run(alloc, tables, plan, at, Item::Close(task, end))
}

/// Plans the sub task of an entry of a task, counted from 0, with all that follows of it, and gives its
/// number (WS-HumanTask 1.1, 4.7 and 4.10). The task hasn't ended, the entry is one of its model, and it
/// isn't made. After want of memory the plan holds some of it.
pub fn instantiate(
    alloc: Global,
    tables: &Tables,
    plan: &mut Plan,
    task: TaskId,
    entry: u32,
    at: Moment,
) -> Result<TaskId, Memory>
    requires plan { IsSoundPlan tables.now.tables plan.old }
    requires entry { IsToMake (planned tables.now.tables plan.old) task.0 entry }
    requires at { at.0 ≤ last_moment }
    ensures id { IfOk result (λ id. id.0 ≡ length (planned tables.now.tables plan.old).rows + 1) }
    ensures made { IfOk result
        (λ id. IsSubTask (planned tables.now.tables plan.new) task.0 entry id.0) }
    ensures runs { OnOk result
        (Runs tables.now.tables plan.old plan.new at (Make task.0 entry ∷ [])) }
    ensures marked { OnErr result (plan.new.marked ≡ plan.old.marked) }
{
    count_models(tables);
    let new = TaskId(plan.rows(tables) + 1);
    run(alloc, tables, plan, at, Item::Make(task, entry))?;
    Ok(new)
}
