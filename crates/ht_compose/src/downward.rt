ghost use Rattle.std.specs.Prelude.{◌≡◌, OnOk, IsTrue, OnErr};
ghost use Rattle.ht_compose.specs.Downward.{closing, holding, skipping};
ghost use Rattle.ht_compose.specs.Reaching.{IsTask};
ghost use Rattle.ht_base.specs.State.{is_final};
ghost use Rattle.ht_tree.specs.Plans.{GoesByRows, IsSoundPlan, planned};
ghost use Rattle.ht_tree.specs.Soundness.{IsSound};

use crate::reaching::Reach;
use crate::spreading::spread;
use ht_base::{Memory, State, TaskId};
use ht_tree::{Plan, Tables};
use std::alloc::Global;

/// Plans that every open task below this one takes its suspended form (WS-HumanTask 1.1, 4.10). After
/// want of memory the plan holds some of it.
pub fn hold(alloc: Global, tables: &Tables, plan: &mut Plan, task: TaskId) -> Result<(), Memory>
    requires plan { IsSoundPlan tables.now.tables plan.old }
    requires there { IsTask (planned tables.now.tables plan.old) task.0 }
    ensures goes { OnOk result
        (GoesByRows tables.now.tables plan.old plan.new (holding task.0)) }
    ensures sound { OnOk result (IsSound (planned tables.now.tables plan.new)) }
    ensures marked { OnErr result (plan.new.marked ≡ plan.old.marked) }
{
    spread(alloc, tables, plan, task, Reach::Hold)
}

/// Plans that every task below this one that hasn't ended is obsolete. After want of memory the plan holds
/// some of it.
pub(crate) fn skip_below(
    alloc: Global,
    tables: &Tables,
    plan: &mut Plan,
    task: TaskId,
) -> Result<(), Memory>
    requires plan { IsSoundPlan tables.now.tables plan.old }
    requires there { IsTask (planned tables.now.tables plan.old) task.0 }
    ensures goes { OnOk result
        (GoesByRows tables.now.tables plan.old plan.new (skipping task.0)) }
    ensures sound { OnOk result (IsSound (planned tables.now.tables plan.new)) }
    ensures marked { OnErr result (plan.new.marked ≡ plan.old.marked) }
{
    spread(alloc, tables, plan, task, Reach::Skip)
}

/// Plans that a task that hasn't ended does so in this final state, and every other below it with it:
/// obsolete where the task is, and else exited. After want of memory the plan holds some of it.
pub(crate) fn close_family(
    alloc: Global,
    tables: &Tables,
    plan: &mut Plan,
    task: TaskId,
    end: State,
) -> Result<(), Memory>
    requires plan { IsSoundPlan tables.now.tables plan.old }
    requires there { IsTask (planned tables.now.tables plan.old) task.0 }
    requires end { IsTrue (is_final end) }
    ensures goes { OnOk result
        (GoesByRows tables.now.tables plan.old plan.new (closing end task.0)) }
    ensures sound { OnOk result (IsSound (planned tables.now.tables plan.new)) }
    ensures marked { OnErr result (plan.new.marked ≡ plan.old.marked) }
{
    spread(alloc, tables, plan, task, Reach::Close(end))
}
