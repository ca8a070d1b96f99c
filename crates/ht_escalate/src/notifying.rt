ghost use Rattle.std.specs.Prelude.{◌≡◌, IfOk, IfSome, OnErr, OnOk};
ghost use Rattle.ht_escalate.specs.Escalating as spec;
ghost use Rattle.ht_escalate.specs.Seeing.{IsSeen, env_of, kinds_of, people_of, row_of, sight_of, telling};
ghost use Rattle.ht_models.specs.Kinded.{Ends, Escalates};
ghost use Rattle.ht_models.specs.Shown as shown;

use crate::seen::Seen;
use crate::triggering::is_triggered;
use ht_base::{Memory, Moment};
use ht_models::{Deadline, Escalation};
use ht_tree::{Notice, Plan, resolve_seen};
use ht_value::Env;
use std::alloc::Global;

/// The notifications that a deadline of a task sends at its due moment, in the order of its escalations.
pub(crate) fn notices_of(
    alloc: Global,
    seen: &Seen<'_>,
    deadline: &Deadline,
    at: Moment,
    view: &mut Option<Env>,
) -> Result<Vec<Notice>, Memory>
    requires seen { IsSeen seen.now }
    requires kinds { Ends (kinds_of seen.now) deadline.now }
    requires view { IfSome view.old (λ e. e ≡ env_of seen.now) }
    ensures notices { IfOk result (λ notices.
        notices.items ≡ spec.notices_of (people_of seen.now) (sight_of seen.now)
        (row_of seen.now).task (shown.deadline_of deadline.now) at) }
    ensures view { OnOk result (IfSome view.new (λ e. e ≡ env_of seen.now)) }
{
    let mut notices = Vec::new(alloc);
    for escalation in &deadline.escalations {
        if let Some(notice) = notice_of(alloc, seen, deadline, escalation, at, view)? {
            notices.push(notice)?;
        }
    }
    Ok(notices)
}

// The notification of an escalation, if it is triggered and tells anybody.
fn notice_of(
    alloc: Global,
    seen: &Seen<'_>,
    deadline: &Deadline,
    escalation: &Escalation,
    at: Moment,
    view: &mut Option<Env>,
) -> Result<Option<Notice>, Memory>
    requires seen { IsSeen seen.now }
    requires kinds { Escalates (kinds_of seen.now) escalation.now }
    requires view { IfSome view.old (λ e. e ≡ env_of seen.now) }
    ensures notice { IfOk result (λ notice.
        notice ≡ spec.notice_if_triggered (people_of seen.now) (sight_of seen.now)
        (row_of seen.now).task (deadline.now).name at (shown.escalation_of escalation.now)) }
    ensures view { OnOk result (IfSome view.new (λ e. e ≡ env_of seen.now)) }
{
    let Some(assign) = &escalation.notify else {
        return Ok(None);
    };
    if !is_triggered(alloc, seen, escalation, view)? {
        return Ok(None);
    }
    Ok(Some(Notice {
        task: seen.row.task,
        deadline: deadline.name,
        escalation: escalation.name,
        moment: at,
        recipients: resolve_seen(alloc, seen.tables, seen.plan, seen.row, assign, view)?,
    }))
}

/// Adds notifications behind the others.
pub(crate) fn notify_all(plan: &mut Plan, notices: Vec<Notice>) -> Result<(), Memory>
    ensures told { OnOk result (plan.new ≡ telling plan.old notices.items) }
    ensures marked { OnErr result (plan.new.marked ≡ plan.old.marked) }
{
    for notice in notices {
        plan.notify(notice)?;
    }
    Ok(())
}
