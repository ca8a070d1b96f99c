//! Which kind an expression has, if its kinds fit.
ghost use Rattle.std.specs.Prelude.{◌≡◌};
ghost use Rattle.ht_expr.specs.KindTable as table;
ghost use Rattle.ht_expr.specs.Nodes.{shown_node};

use crate::node::Node;
use crate::{Kinds, Operator};
use ht_base::Kind;

/// The kind of the expression, where its parts are declared and its kinds fit.
pub(crate) fn kind_of(node: &Node, kinds: &Kinds) -> Option<Kind>
    ensures { result ≡ table.kind_of kinds.now (shown_node node.now) }
{
    match node {
        Node::Number(_)
        | Node::Priority
        | Node::Count(_)
        | Node::CountText(_, _)
        | Node::CountTrue(_) => Some(Kind::Int),
        Node::Text(_) => Some(Kind::Text),
        Node::Truth(_) => Some(Kind::Truth),
        Node::Initiator => Some(Kind::Person),
        Node::Part(side, name) => kinds.kind(*side, name.as_str().as_bytes()),
        Node::IsSet(side, name) => {
            kinds.kind(*side, name.as_str().as_bytes())?;
            Some(Kind::Truth)
        }
        Node::Brackets(inner) => kind_of(inner, kinds),
        Node::Negative(operand) => of_kind(Kind::Int, kind_of(operand, kinds)),
        Node::Not(operand) => of_kind(Kind::Truth, kind_of(operand, kinds)),
        Node::Binary(operator, left, right) => {
            operated_kind(*operator, kind_of(left, kinds), kind_of(right, kinds))
        }
        Node::If(test, then, other) => {
            if is_of_kind(Kind::Truth, kind_of(test, kinds)) {
                common_kind(kind_of(then, kinds), kind_of(other, kinds))
            } else {
                None
            }
        }
    }
}

/// Whether there is a kind, and it is this one.
pub fn is_of_kind(wanted: Kind, kind: Option<Kind>) -> bool
    ensures { result ≡ table.is_of_kind wanted kind }
{
    match kind {
        Some(kind) => is_same(wanted, kind),
        None => false,
    }
}

fn of_kind(wanted: Kind, kind: Option<Kind>) -> Option<Kind>
    ensures { result ≡ table.if_of_kind wanted kind }
{
    if is_of_kind(wanted, kind) {
        Some(wanted)
    } else {
        None
    }
}

fn operated_kind(operator: Operator, left: Option<Kind>, right: Option<Kind>) -> Option<Kind>
    ensures { result ≡ table.operated_kind operator left right }
{
    if operands_fit(operator, left?, right?) {
        Some(operator_kind(operator))
    } else {
        None
    }
}

fn common_kind(left: Option<Kind>, right: Option<Kind>) -> Option<Kind>
    ensures { result ≡ table.common_kind left right }
{
    let kind = left?;
    if is_same(kind, right?) {
        Some(kind)
    } else {
        None
    }
}

fn operands_fit(operator: Operator, left: Kind, right: Kind) -> bool
    ensures { result ≡ table.operands_fit operator left right }
{
    match operator {
        Operator::Or | Operator::And => are(Kind::Truth, left, right),
        Operator::Equal | Operator::NotEqual => is_same(left, right),
        Operator::Less | Operator::LessOrEqual | Operator::Greater | Operator::GreaterOrEqual => {
            are(Kind::Int, left, right) || are(Kind::Instant, left, right)
        }
        Operator::Plus | Operator::Minus | Operator::Times => are(Kind::Int, left, right),
    }
}

fn operator_kind(operator: Operator) -> Kind
    ensures { result ≡ table.operator_kind operator }
{
    match operator {
        Operator::Plus | Operator::Minus | Operator::Times => Kind::Int,
        Operator::Or
        | Operator::And
        | Operator::Equal
        | Operator::NotEqual
        | Operator::Less
        | Operator::LessOrEqual
        | Operator::Greater
        | Operator::GreaterOrEqual => Kind::Truth,
    }
}

fn are(kind: Kind, left: Kind, right: Kind) -> bool
    ensures { result ≡ table.are kind left right }
{
    is_same(kind, left) && is_same(kind, right)
}

fn is_same(left: Kind, right: Kind) -> bool
    ensures { result ≡ table.same_kind left right }
{
    match left {
        Kind::Text => matches!(right, Kind::Text),
        Kind::Int => matches!(right, Kind::Int),
        Kind::Truth => matches!(right, Kind::Truth),
        Kind::Person => matches!(right, Kind::Person),
        Kind::Instant => matches!(right, Kind::Instant),
    }
}
