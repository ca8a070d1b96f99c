ghost use Rattle.std.specs.Prelude.{◌≡◌};
ghost use Rattle.ht_compose.specs.Families.{is_above};
ghost use Rattle.ht_tree.specs.Families.{parent_at};
ghost use Rattle.ht_tree.specs.Plans.{IsPlanOf, planned};

use ht_base::TaskId;
use ht_tree::{Plan, Row, Tables};

/// Whether a task is above that of a row, as it would be after the plan.
pub(crate) fn is_below(tables: &Tables, plan: &Plan, row: &Row, task: TaskId) -> bool
    requires { IsPlanOf tables.now.tables plan.now }
    ensures { result ≡ is_above (planned tables.now.tables plan.now).rows task.0 row.now }
{
    let mut parent = row.parent;
    for _step in 0..row.task.0 {
        let Some((above, _)) = parent else {
            return false;
        };
        if above == task {
            return true;
        }
        parent = parent_of(tables, plan, above);
    }
    false
}

// The parent of a task, if it is a sub task, and the place of its entry.
fn parent_of(tables: &Tables, plan: &Plan, task: TaskId) -> Option<(TaskId, u32)>
    requires { IsPlanOf tables.now.tables plan.now }
    ensures { result ≡ parent_at task.0 (planned tables.now.tables plan.now).rows }
{
    plan.row(tables, task)?.parent
}
