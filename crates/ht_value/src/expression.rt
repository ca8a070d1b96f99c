//! The number or the truth that an expression gives, which has a kind since it was read.
ghost use Rattle.std.specs.Prelude.{◌≡◌, IsTrue, Some};
ghost use Rattle.ht_base.specs.declared.kind.Kind.TheVariants.{Int, Truth};
ghost use Rattle.ht_expr.specs.KindTable.{kind_of};
ghost use Rattle.ht_value.specs.Environment.{has_parts};
ghost use Rattle.ht_value.specs.Values as values;

use crate::{Env, evaluating, operating};
use ht_expr::Expr;

/// The value of an expression of kind Int. It takes no memory.
pub fn int(expr: &Expr, env: &Env) -> i64
    requires kind { kind_of expr.now.kinds expr.now.tree ≡ Some Int }
    requires parts { IsTrue (has_parts expr.now.kinds env.now) }
    ensures { values.value expr.now.kinds env.now expr.now.tree ≡ values.a_number result }
{
    match operating::number(evaluating::value(expr.node(), expr.kinds(), env)) {
        Some(number) => number,
        None => 0,
    }
}

/// The value of an expression of kind Truth. It takes no memory.
pub fn truth(expr: &Expr, env: &Env) -> bool
    requires kind { kind_of expr.now.kinds expr.now.tree ≡ Some Truth }
    requires parts { IsTrue (has_parts expr.now.kinds env.now) }
    ensures { values.value expr.now.kinds env.now expr.now.tree ≡ values.a_truth result }
{
    match operating::truth(evaluating::value(expr.node(), expr.kinds(), env)) {
        Some(truth) => truth,
        None => false,
    }
}
