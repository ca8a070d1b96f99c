ghost use Rattle.std.specs.Prelude.{◌≡◌, ◌≤◌};
ghost use Rattle.ht_escalate.specs.Kept.{IsFirstKept};
ghost use Rattle.ht_tree.specs.Plans.{IsPlanOf, planned};
ghost use Rattle.ht_tree.specs.RowDues.{first_due};
ghost use Rattle.ht_tree.specs.Soundness.{IsSound};

use ht_base::Moment;
use ht_due::{Due, lesser};
use ht_tree::{Plan, Tables, least_changed};

/// The first of what is due by a moment, as it would be after the plan (WS-HumanTask 1.1, 4.9). None
/// where nothing is due by then. It takes no memory, and looks at the first dues of the tables and at the
/// rows that the plan puts.
pub fn first(tables: &Tables, plan: &Plan, by: Moment) -> Option<Due>
    requires { IsPlanOf tables.now.tables plan.now }
    ensures { result ≡ first_due (planned tables.now.tables plan.now) by.0 }
{
    let kept = first_kept(tables, plan, by);
    let changed = least_changed(tables, plan);
    let Some(due) = lesser(kept, changed) else {
        return None;
    };
    if due.at.0 > by.0 {
        return None;
    }
    Some(due)
}

// The first due of the tables by a moment, of a task of which the plan puts no row.
fn first_kept(tables: &Tables, plan: &Plan, by: Moment) -> Option<Due>
    ensures first { IsFirstKept tables.now.tables plan.now by.0 result }
    ensures sound { IsSound tables.now.tables }
{
    let queue = tables.due();
    let mut next = queue.least();
    while let Some(due) = next {
        if due.at.0 > by.0 {
            return None;
        }
        if plan.puts_row(due.task) {
            next = queue.after(due);
        } else {
            return Some(due);
        }
    }
    None
}
