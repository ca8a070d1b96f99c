//! The value of an expression, without memory: a text is held where it stands.
ghost use Rattle.std.specs.Prelude.{◌≡◌};
ghost use Rattle.ht_value.specs.Evaluating.{outcome};
ghost use Rattle.ht_value.specs.Environment as environment;
ghost use Rattle.ht_expr.specs.Kinds.{declared_kind};
ghost use Rattle.ht_expr.specs.Nodes.{shown_node};
ghost use Rattle.ht_value.specs.Values as values;

use crate::Env;
use crate::counting::{counted, text_count, true_count};
use crate::operating::{negative, number, of_number, of_truth, operated, opposite, signed, truth};
use ht_base::{Kind, Moment, Txt, Value};
use ht_expr::{Kinds, Node, Side};

/// What an expression gives: a value, of which a person may be nobody, or nothing, where its kinds
/// don't fit.
#[derive(Clone, Copy)]
pub(crate) enum Held<'a> {
    Text(&'a str),
    Number(i64),
    Truth(bool),
    /// By the place in the people text.
    Person(Option<u32>),
    Instant(Moment),
    Nothing,
}

/// The value of the expression.
pub(crate) fn value<'a>(node: &'a Node, kinds: &Kinds, env: &'a Env) -> Held<'a>
    ensures { outcome result ≡ values.value kinds.now env.now (shown_node node.now) }
{
    match node {
        Node::Number(number) => Held::Number(signed(*number)),
        Node::Text(text) => Held::Text(text.as_str()),
        Node::Truth(truth) => Held::Truth(*truth),
        Node::Priority => Held::Number(env.priority),
        Node::Initiator => Held::Person(Some(env.initiator.0)),
        Node::Part(side, name) => part(*side, name, kinds, env),
        Node::IsSet(side, name) => Held::Truth(env.given(*side, name.as_str()).is_some()),
        Node::Count(count) => Held::Number(counted(*count, &env.subs)),
        Node::CountText(part, text) => Held::Number(text_count(part, text, &env.subs)),
        Node::CountTrue(part) => Held::Number(true_count(part, &env.subs)),
        Node::Brackets(inner) => value(inner, kinds, env),
        Node::Negative(operand) => of_number(negative(number(value(operand, kinds, env)))),
        Node::Not(operand) => of_truth(opposite(truth(value(operand, kinds, env)))),
        Node::Binary(operator, left, right) => {
            operated(*operator, value(left, kinds, env), value(right, kinds, env))
        }
        Node::If(test, then, other) => match truth(value(test, kinds, env)) {
            Some(true) => value(then, kinds, env),
            Some(false) => value(other, kinds, env),
            None => Held::Nothing,
        },
    }
}

fn part<'a>(side: Side, name: &Txt, kinds: &Kinds, env: &'a Env) -> Held<'a>
    ensures { outcome result ≡ values.given_or_unset (environment.given env.now side name.now)
        (declared_kind kinds.now side name.now) }
{
    match env.given(side, name.as_str()) {
        Some(value) => of_value(value),
        None => unset(kinds.kind(side, name.as_str().as_bytes())),
    }
}

fn of_value(value: &Value) -> Held<'_>
    ensures { outcome result ≡ values.outcome_of value.now }
{
    match value {
        Value::Text(text) => Held::Text(text.as_str()),
        Value::Int(number) => Held::Number(*number),
        Value::Truth(truth) => Held::Truth(*truth),
        Value::Person(person) => Held::Person(Some(person.0)),
        Value::Instant(moment) => Held::Instant(*moment),
    }
}

fn unset(kind: Option<Kind>) -> Held<'static>
    ensures { outcome result ≡ values.unset kind }
{
    match kind {
        Some(Kind::Text) => Held::Text(""),
        Some(Kind::Int) => Held::Number(0),
        Some(Kind::Truth) => Held::Truth(false),
        Some(Kind::Person) => Held::Person(None),
        Some(Kind::Instant) => Held::Instant(Moment(0)),
        None => Held::Nothing,
    }
}
