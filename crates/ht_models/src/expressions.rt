ghost use Rattle.std.specs.Prelude.{◌≡◌, ◌≢◌, IfErr, IfOk, IfSome, option_map};
ghost use Rattle.ht_expr.specs.AssignmentKinds.{Assigns};
ghost use Rattle.ht_expr.specs.Shown.{shown};
ghost use Rattle.ht_expr.specs.Trees.{nobody};
ghost use Rattle.ht_models.specs.Expressions.{IsRefused, One, Spells, asked, assignment, expression};
ghost use Rattle.ht_models.specs.Kinded.{IsOfKind};
ghost use Rattle.ht_models.specs.Reading.{IsIfAny, IsOr};

use ht_base::{Kind, Txt};
use ht_expr::{Assign, Expr, ExprRefusal, Kinds, is_of_kind};
use std::alloc::Global;

/// The assignment that a text is.
fn assignment(alloc: Global, text: &Txt, kinds: &Kinds) -> Result<Assign, ExprRefusal>
    ensures ok { IfOk result (λ a. Spells kinds.now (assignment, text.now) (shown a)) }
    ensures kinds { IfOk result (Assigns kinds.now) }
    ensures refused { IfErr result
        (λ e. e ≢ ExprRefusal.Memory → IsRefused kinds.now (assignment, text.now)) }
{
    Assign::read(alloc, text.as_str(), kinds)
}

/// The assignment of a key, which is nobody where the key is missing.
pub fn assignment_or_nobody(
    alloc: Global,
    text: &Option<Txt>,
    kinds: &Kinds,
) -> Result<Assign, ExprRefusal>
    ensures ok { IfOk result (λ a. IsOr kinds.now assignment nobody text.now (shown a)) }
    ensures kinds { IfOk result (Assigns kinds.now) }
    ensures refused { IfErr result
        (λ e. e ≢ ExprRefusal.Memory → One (IsRefused kinds.now) (asked assignment text.now)) }
{
    match text {
        Some(text) => assignment(alloc, text, kinds),
        None => Ok(Assign::Nobody),
    }
}

/// The assignment of a key, if the key is there.
pub fn assignment_if_any(
    alloc: Global,
    text: &Option<Txt>,
    kinds: &Kinds,
) -> Result<Option<Assign>, ExprRefusal>
    ensures ok { IfOk result (λ a. IsIfAny kinds.now assignment text.now (option_map shown a)) }
    ensures kinds { IfOk result (λ a. IfSome a (Assigns kinds.now)) }
    ensures refused { IfErr result
        (λ e. e ≢ ExprRefusal.Memory → One (IsRefused kinds.now) (asked assignment text.now)) }
{
    match text {
        Some(text) => Ok(Some(assignment(alloc, text, kinds)?)),
        None => Ok(None),
    }
}

/// The expression of this kind that a text is.
fn expression(alloc: Global, kind: Kind, text: &Txt, kinds: &Kinds) -> Result<Expr, ExprRefusal>
    ensures ok { IfOk result (λ e. Spells kinds.now (expression kind, text.now) e.tree) }
    ensures kinds { IfOk result (IsOfKind kinds.now kind) }
    ensures refused { IfErr result
        (λ e. e ≢ ExprRefusal.Memory → IsRefused kinds.now (expression kind, text.now)) }
{
    let expression = Expr::read(alloc, text.as_str(), kinds)?;
    if is_of_kind(kind, Some(expression.kind())) {
        Ok(expression)
    } else {
        Err(ExprRefusal::BadKind)
    }
}

/// The expression of this kind of a key, if the key is there.
pub fn expression_if_any(
    alloc: Global,
    kind: Kind,
    text: &Option<Txt>,
    kinds: &Kinds,
) -> Result<Option<Expr>, ExprRefusal>
    ensures ok { IfOk result
        (λ x. IsIfAny kinds.now (expression kind) text.now (option_map (λ e. e.tree) x)) }
    ensures kinds { IfOk result (λ x. IfSome x (IsOfKind kinds.now kind)) }
    ensures refused { IfErr result (λ e.
        e ≢ ExprRefusal.Memory → One (IsRefused kinds.now) (asked (expression kind) text.now)) }
{
    match text {
        Some(text) => Ok(Some(expression(alloc, kind, text, kinds)?)),
        None => Ok(None),
    }
}
