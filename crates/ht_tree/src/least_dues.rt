ghost use Rattle.std.specs.Prelude.{◌≡◌, ◌*◌, ◌<◌, ◌≤◌, [], IfSome, length, map, option_map, slice_get};
ghost use Rattle.std.specs.Option.{option_map_or};
ghost use Rattle.ht_base.specs.declared.limits.TheConstants.{MOST_DEADLINES};
ghost use Rattle.ht_models.specs.Shown as shown;
ghost use Rattle.ht_tree.specs.Plans.{IsPlanOf, planned};
ghost use Rattle.ht_due.specs.Dues as dues;
ghost use Rattle.ht_tree.specs.RowDues as spec;

use crate::row_dues::{kind_of, open_moment};
use crate::{Plan, Row, Tables};
use ht_base::Moment;
use ht_due::{Due, lesser};
use ht_models::{Deadline, Models};

/// The least of what is due, as they would be after the plan, of the tasks of which it puts rows. It
/// takes no memory.
pub fn least_changed(tables: &Tables, plan: &Plan) -> Option<Due>
    requires { IsPlanOf tables.now.tables plan.now }
    ensures { result ≡ slice_get (spec.changed_dues tables.now.tables.models
        (planned tables.now.tables plan.now).rows plan.now.changes.rows) 0 }
{
    let mut least = None;
    for put in plan.puts() {
        let row = plan.row(tables, put.task);
        least = lesser(least, least_of(tables.models(), row));
    }
    least
}

fn least_of(models: &Models, row: Option<&Row>) -> Option<Due>
    requires { IfSome row (λ r. r.now.model < length models.now) }
    ensures { result
        ≡ dues.least_of
        (option_map_or (spec.row_dues models.now) (option_map (λ r. r.now) row.entry) []) }
{
    least_due(models, row?)
}

// The least of what is due of a row.
fn least_due(models: &Models, row: &Row) -> Option<Due>
    requires { row.now.model < length models.now }
    ensures { result ≡ dues.least_of (spec.row_dues models.now row.now) }
{
    let deadlines = &models.model(row.model).deadlines;
    let waits = due_at(row, 0, 0, row.waits);
    let until = due_at(row, 1, 0, row.until);
    lesser(lesser(waits, until), least_deadline(row, deadlines))
}

fn least_deadline(row: &Row, deadlines: &[Deadline]) -> Option<Due>
    requires { length deadlines.now ≤ 2 * MOST_DEADLINES }
    ensures { result
        ≡ dues.least_of (spec.deadline_dues row.now 0 (map shown.deadline_of deadlines.now)) }
{
    let mut least = None;
    for (place, deadline) in deadlines.iter().enumerate() {
        least = lesser(least, deadline_due(row, place as u32, deadline));
    }
    least
}

fn deadline_due(row: &Row, place: u32, deadline: &Deadline) -> Option<Due>
    ensures { result
        ≡ dues.least_of (spec.deadline_due row.now place (shown.deadline_of deadline.now)) }
{
    let at = open_moment(row, place, deadline);
    due_at(row, kind_of(deadline.kind), place, at)
}

fn due_at(row: &Row, kind: u8, place: u32, at: Option<Moment>) -> Option<Due>
    ensures { result ≡ dues.least_of (spec.due_of row.now kind place at) }
{
    Some(Due {
        at: at?,
        task: row.task,
        kind,
        place,
    })
}
