ghost use Rattle.std.specs.Prelude.{◌≡◌, ◌≤◌, IfOk, OnErr, OnOk};
ghost use Rattle.ht_base.specs.Moment.{last_moment};
ghost use Rattle.ht_escalate.specs.Escalating as spec;
ghost use Rattle.ht_escalate.specs.Escalating.{IsEscalated, IsOpen};
ghost use Rattle.ht_escalate.specs.Seeing as seeing;
ghost use Rattle.ht_escalate.specs.Seeing.{IsSeen, kinds_of, people_of, row_of, sight_of};
ghost use Rattle.ht_models.specs.Kinded.{Ends};
ghost use Rattle.ht_models.specs.Shown as shown;
ghost use Rattle.ht_tree.specs.Plans.{IsSoundPlan, planned};

use crate::notifying::{notices_of, notify_all};
use crate::reassigning::{Owners, new_owners, taken_row};
use crate::seen::Seen;
use ht_base::{Memory, Moment, TaskId};
use ht_models::Deadline;
use ht_tree::{Notice, Plan, Tables};
use std::alloc::Global;

/// Plans that the deadline at a place of a task's model is taken, counted from 0, at the moment at which
/// it is due: what its escalations say follows (WS-HumanTask 1.1, 4.9). After want of memory the plan
/// can still go back to its mark.
pub fn deadline(
    alloc: Global,
    tables: &Tables,
    plan: &mut Plan,
    task: TaskId,
    place: u32,
    at: Moment,
) -> Result<(), Memory>
    requires plan { IsSoundPlan tables.now.tables plan.old }
    requires open { IsOpen (planned tables.now.tables plan.old) task.0 place }
    requires at { at.0 ≤ last_moment }
    ensures escalates { OnOk result
        (IsEscalated tables.now.tables plan.old plan.new at task.0 place) }
    ensures marked { OnErr result (plan.new.marked ≡ plan.old.marked) }
{
    let Some(row) = plan.row(tables, task) else {
        unreachable!()
    };
    let model = tables.models().model(row.model);
    let deadline = &model.deadlines[place as usize];
    let seen = Seen {
        tables,
        plan,
        row,
        model,
    };
    let follows = what_follows(alloc, &seen, deadline, at)?;
    let row = plan.take(alloc, tables, task)?;
    plan.put(tables, taken_row(row, follows.owners, place)?)?;
    notify_all(plan, follows.notices)
}

// What the escalations of a deadline say.
#[derive(Drop)]
struct Follows {
    notices: Vec<Notice>,
    owners: Option<Owners>,
}

// Apart from the rest, which would look the row up once more for the place of the view.
#[inline(never)]
fn what_follows(
    alloc: Global,
    seen: &Seen<'_>,
    deadline: &Deadline,
    at: Moment,
) -> Result<Follows, Memory>
    requires seen { IsSeen seen.now }
    requires kinds { Ends (kinds_of seen.now) deadline.now }
    ensures notices { IfOk result (λ f.
        f.notices.items ≡ spec.notices_of (people_of seen.now) (sight_of seen.now)
        (row_of seen.now).task (shown.deadline_of deadline.now) at) }
    ensures owners { IfOk result
        (λ f. f.owners ≡ seeing.new_owners seen.now (shown.deadline_of deadline.now)) }
{
    let mut view = None;
    Ok(Follows {
        notices: notices_of(alloc, seen, deadline, at, &mut view)?,
        owners: new_owners(alloc, seen, deadline, &mut view)?,
    })
}
