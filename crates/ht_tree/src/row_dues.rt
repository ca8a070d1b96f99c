ghost use Rattle.std.specs.Prelude.{◌≡◌, ◌++◌, ◌<◌, OnOk, length, map, option_map};
ghost use Rattle.ht_due.specs.Dues.{has};
ghost use Rattle.ht_models.specs.Shown as shown;
ghost use Rattle.ht_tree.specs.RowDues as spec;

use crate::Row;
use ht_base::{Memory, Moment, Value};
use ht_due::Due;
use ht_entries::DeadlineKind;
use ht_models::{Deadline, Models};

/// Puts the dues of a row behind others: its deferred activation, the end of its suspension, and its
/// deadlines that are neither taken nor obsolete (WS-HumanTask 1.1, 4.9).
pub(crate) fn add_dues(models: &Models, row: &Row, dues: &mut Vec<Due>) -> Result<(), Memory>
    requires { row.now.model < length models.now }
    ensures { OnOk result (dues.new.items ≡ dues.old.items ++ spec.row_dues models.now row.now) }
{
    add_due(row, 0, 0, row.waits, dues)?;
    add_due(row, 1, 0, row.until, dues)?;
    add_deadlines(row, &models.model(row.model).deadlines, dues)
}

fn add_due(
    row: &Row,
    kind: u8,
    place: u32,
    at: Option<Moment>,
    dues: &mut Vec<Due>,
) -> Result<(), Memory>
    ensures { OnOk result (dues.new.items ≡ dues.old.items ++ spec.due_of row.now kind place at) }
{
    if let Some(at) = at {
        dues.push(Due {
            at,
            task: row.task,
            kind,
            place,
        })?;
    }
    Ok(())
}

// A due's place has 32 bits. A model with more deadlines is beyond any memory.
fn add_deadlines(row: &Row, deadlines: &[Deadline], dues: &mut Vec<Due>) -> Result<(), Memory>
    ensures { OnOk result (dues.new.items
        ≡ dues.old.items ++ spec.deadline_dues row.now 0 (map shown.deadline_of deadlines.now)) }
{
    for (place, deadline) in deadlines.iter().enumerate() {
        if place > u32::MAX as usize {
            return Err(Memory);
        }
        add_deadline(row, place as u32, deadline, dues)?;
    }
    Ok(())
}

fn add_deadline(
    row: &Row,
    place: u32,
    deadline: &Deadline,
    dues: &mut Vec<Due>,
) -> Result<(), Memory>
    ensures { OnOk result (dues.new.items
        ≡ dues.old.items ++ spec.deadline_due row.now place (shown.deadline_of deadline.now)) }
{
    let at = open_moment(row, place, deadline);
    add_due(row, kind_of(deadline.kind), place, at, dues)
}

/// Whether a due is one of the row of its task.
pub(crate) fn has_due(models: &Models, row: &Row, due: Due) -> bool
    requires model { row.now.model < length models.now }
    requires task { due.task ≡ row.now.task }
    ensures { result ≡ has due (spec.row_dues models.now row.now) }
{
    match moment_as(models, row, due.kind, due.place) {
        Some(at) => at.0 == due.at.0,
        None => false,
    }
}

// When the row's action of a kind, of the deadline at a place, is due.
fn moment_as(models: &Models, row: &Row, kind: u8, place: u32) -> Option<Moment>
    requires { row.now.model < length models.now }
    ensures { result ≡ spec.moment_as models.now row.now kind place }
{
    match (kind, place) {
        (0, 0) => row.waits,
        (1, 0) => row.until,
        _ => deadline_as(
            row,
            kind,
            place,
            models.model(row.model).deadlines.get(place as usize),
        ),
    }
}

fn deadline_as(row: &Row, kind: u8, place: u32, deadline: Option<&Deadline>) -> Option<Moment>
    ensures { result ≡ spec.deadline_as row.now kind place
        (option_map (λ d. shown.deadline_of d.now) deadline.entry) }
{
    let deadline = deadline?;
    if kind != kind_of(deadline.kind) {
        return None;
    }
    open_moment(row, place, deadline)
}

/// When the deadline at a place of the row's model is due. None where it is taken or obsolete, or by an
/// input part that isn't set.
pub(crate) fn open_moment(row: &Row, place: u32, deadline: &Deadline) -> Option<Moment>
    ensures { result ≡ spec.open_moment row.now place (shown.deadline_of deadline.now) }
{
    if row.taken.contains(place) || is_obsolete(deadline.kind, row) {
        return None;
    }
    moment_of(row, deadline)
}

fn is_obsolete(kind: DeadlineKind, row: &Row) -> bool
    ensures { result ≡ spec.is_obsolete kind row.now }
{
    match kind {
        DeadlineKind::Start => row.started || row.state.is_final(),
        DeadlineKind::Completion => row.state.is_final(),
    }
}

pub(crate) fn kind_of(kind: DeadlineKind) -> u8
    ensures { result ≡ spec.kind_of kind }
{
    match kind {
        DeadlineKind::Start => 2,
        DeadlineKind::Completion => 3,
    }
}

fn moment_of(row: &Row, deadline: &Deadline) -> Option<Moment>
    ensures { result ≡ spec.deadline_moment row.now (shown.deadline_of deadline.now) }
{
    if let Some(period) = deadline.period {
        return Some(row.created.later_by(period));
    }
    if let Some(at) = deadline.at {
        return Some(row.created.max(at));
    }
    let name = deadline.part.as_ref()?;
    let at = moment_in(row.input.value_of(name))?;
    Some(row.created.max(at))
}

fn moment_in(value: Option<&Value>) -> Option<Moment>
    ensures { result ≡ spec.moment_in (option_map (λ v. v.now) value.entry) }
{
    match value {
        Some(Value::Instant(moment)) => Some(*moment),
        _ => None,
    }
}
