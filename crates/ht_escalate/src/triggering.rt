ghost use Rattle.std.specs.Prelude.{◌≡◌, IfOk, IfSome, IsTrue, OnOk};
ghost use Rattle.ht_base.specs.declared.kind.Kind.TheVariants.{Truth};
ghost use Rattle.ht_escalate.specs.Escalating as spec;
ghost use Rattle.ht_escalate.specs.Seeing.{IsSeen, env_of, kinds_of, sight_of};
ghost use Rattle.ht_value.specs.Environment.{has_parts};
ghost use Rattle.ht_expr.specs.Kinds.{Declared};
ghost use Rattle.ht_value.specs.Values as values;
ghost use Rattle.ht_models.specs.Kinded.{Escalates, IsOfKind};
ghost use Rattle.ht_models.specs.Shown as shown;

use crate::seen::Seen;
use ht_base::Memory;
use ht_expr::Expr;
use ht_models::Escalation;
use ht_tree::see;
use ht_value::{Env, truth};
use std::alloc::Global;

/// Whether the condition of an escalation is true of a task. Without a condition nothing of the task is
/// looked at. What a condition or an assignment sees of it is made once, in `view`.
pub(crate) fn is_triggered(
    alloc: Global,
    seen: &Seen<'_>,
    escalation: &Escalation,
    view: &mut Option<Env>,
) -> Result<bool, Memory>
    requires seen { IsSeen seen.now }
    requires kinds { Escalates (kinds_of seen.now) escalation.now }
    requires view { IfSome view.old (λ e. e ≡ env_of seen.now) }
    ensures triggered { IfOk result (λ triggered.
        triggered ≡ spec.is_triggered (sight_of seen.now) (shown.escalation_of escalation.now)) }
    ensures view { OnOk result (IfSome view.new (λ e. e ≡ env_of seen.now)) }
{
    match &escalation.when {
        Some(condition) => {
            see(alloc, seen.tables, seen.plan, seen.row, view)?;
            match view {
                Some(env) => Ok(is_true(condition, env)),
                None => unreachable!(),
            }
        }
        None => Ok(true),
    }
}

fn is_true(condition: &Expr, env: &Env) -> bool
    requires { (kinds : Declared) × IsOfKind kinds Truth condition.now
        × IsTrue (has_parts kinds env.now) }
    ensures { (kinds : Declared) → IsOfKind kinds Truth condition.now
        → values.value kinds env.now (condition.now).tree ≡ values.a_truth result }
{
    truth(condition, env)
}
