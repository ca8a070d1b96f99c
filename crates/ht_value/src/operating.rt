//! What operators make of values.
ghost use Rattle.std.specs.Prelude.{◌≡◌, ◌&&◌, ◌||◌, not, pos, neg_ℤ, ◌+ℤ◌, ◌-ℤ◌, ◌*ℤ◌, option_map};
ghost use Rattle.ht_base.specs.Integers.{clamped};
ghost use Rattle.ht_value.specs.Evaluating.{outcome};
ghost use Rattle.ht_value.specs.Values as values;

use crate::evaluating::Held;
use ht_expr::Operator;

/// What the operator makes of its operands.
pub(crate) fn operated<'a>(operator: Operator, left: Held<'a>, right: Held<'a>) -> Held<'a>
    ensures { outcome result ≡ values.operated operator (outcome left.entry) (outcome right.entry) }
{
    match operator {
        Operator::Or => of_truth(either(truth(left), truth(right))),
        Operator::And => of_truth(both(truth(left), truth(right))),
        Operator::Equal => of_truth(is_equal(left, right)),
        Operator::NotEqual => of_truth(opposite(is_equal(left, right))),
        Operator::Less => of_truth(is_less(left, right)),
        Operator::LessOrEqual => of_truth(opposite(is_less(right, left))),
        Operator::Greater => of_truth(is_less(right, left)),
        Operator::GreaterOrEqual => of_truth(opposite(is_less(left, right))),
        Operator::Plus => of_number(sum(number(left), number(right))),
        Operator::Minus => of_number(difference(number(left), number(right))),
        Operator::Times => of_number(product(number(left), number(right))),
    }
}

pub(crate) fn of_truth<'a>(truth: Option<bool>) -> Held<'a>
    ensures { outcome result ≡ values.of_truth truth }
{
    match truth {
        Some(truth) => Held::Truth(truth),
        None => Held::Nothing,
    }
}

pub(crate) fn of_number<'a>(number: Option<i64>) -> Held<'a>
    ensures { outcome result ≡ values.of_number number }
{
    match number {
        Some(number) => Held::Number(number),
        None => Held::Nothing,
    }
}

// ---- operands

fn text<'a>(held: Held<'a>) -> Option<&'a str>
    ensures { option_map (λ t. t.now) result ≡ values.text_in (outcome held.entry) }
{
    match held {
        Held::Text(text) => Some(text),
        Held::Number(_) | Held::Truth(_) | Held::Person(_) | Held::Instant(_) | Held::Nothing => {
            None
        }
    }
}

pub(crate) fn number(held: Held<'_>) -> Option<i64>
    ensures { result ≡ values.number_in (outcome held.entry) }
{
    match held {
        Held::Number(number) => Some(number),
        Held::Text(_) | Held::Truth(_) | Held::Person(_) | Held::Instant(_) | Held::Nothing => None,
    }
}

pub(crate) fn truth(held: Held<'_>) -> Option<bool>
    ensures { result ≡ values.truth_in (outcome held.entry) }
{
    match held {
        Held::Truth(truth) => Some(truth),
        Held::Text(_) | Held::Number(_) | Held::Person(_) | Held::Instant(_) | Held::Nothing => {
            None
        }
    }
}

fn person(held: Held<'_>) -> Option<Option<u32>>
    ensures { result ≡ values.person_in (outcome held.entry) }
{
    match held {
        Held::Person(person) => Some(person),
        Held::Text(_) | Held::Number(_) | Held::Truth(_) | Held::Instant(_) | Held::Nothing => None,
    }
}

fn moment(held: Held<'_>) -> Option<u64>
    ensures { result ≡ values.moment_in (outcome held.entry) }
{
    match held {
        Held::Instant(moment) => Some(moment.0),
        Held::Text(_) | Held::Number(_) | Held::Truth(_) | Held::Person(_) | Held::Nothing => None,
    }
}

// ---- truths

fn either(left: Option<bool>, right: Option<bool>) -> Option<bool>
    ensures { result ≡ values.on_both (λ x y. x || y) left right }
{
    let (left, right) = (left?, right?);
    Some(left || right)
}

fn both(left: Option<bool>, right: Option<bool>) -> Option<bool>
    ensures { result ≡ values.on_both (λ x y. x && y) left right }
{
    let (left, right) = (left?, right?);
    Some(left && right)
}

pub(crate) fn opposite(truth: Option<bool>) -> Option<bool>
    ensures { result ≡ option_map not truth }
{
    Some(!truth?)
}

fn is_equal(left: Held<'_>, right: Held<'_>) -> Option<bool>
    ensures { result ≡ values.is_equal (outcome left.entry) (outcome right.entry) }
{
    match left {
        Held::Text(left) => Some(left == text(right)?),
        Held::Number(left) => Some(left == number(right)?),
        Held::Truth(left) => Some(is_same(left, truth(right)?)),
        Held::Person(left) => Some(is_same_person(left, person(right)?)),
        Held::Instant(left) => Some(left.0 == moment(right)?),
        Held::Nothing => None,
    }
}

fn is_same(left: bool, right: bool) -> bool
    ensures { result ≡ values.same_truth left right }
{
    if left { right } else { !right }
}

// Nobody equals nobody alone.
fn is_same_person(left: Option<u32>, right: Option<u32>) -> bool
    ensures { result ≡ values.same_person left right }
{
    match left {
        Some(left) => match right {
            Some(right) => left == right,
            None => false,
        },
        None => right.is_none(),
    }
}

fn is_less(left: Held<'_>, right: Held<'_>) -> Option<bool>
    ensures { result ≡ values.is_less (outcome left.entry) (outcome right.entry) }
{
    match left {
        Held::Number(left) => Some(left < number(right)?),
        Held::Instant(left) => Some(left.0 < moment(right)?),
        Held::Text(_) | Held::Truth(_) | Held::Person(_) | Held::Nothing => None,
    }
}

// ---- numbers

/// The number of 64 bits with a sign that is nearest.
#[tactic(auto, using(crate::proofs::Clamping::clamped_unsigned))]
pub(crate) fn signed(number: u64) -> i64
    ensures { result ≡ clamped (pos number) }
{
    0i64.saturating_add_unsigned(number)
}

#[tactic(auto, using(crate::proofs::Clamping::clamped_to))]
fn sum(left: Option<i64>, right: Option<i64>) -> Option<i64>
    ensures { result ≡ values.on_both (λ x y. clamped (x +ℤ y)) left right }
{
    let (left, right) = (left?, right?);
    Some(left.saturating_add(right))
}

#[tactic(auto, using(crate::proofs::Clamping::clamped_to))]
fn difference(left: Option<i64>, right: Option<i64>) -> Option<i64>
    ensures { result ≡ values.on_both (λ x y. clamped (x -ℤ y)) left right }
{
    let (left, right) = (left?, right?);
    Some(left.saturating_sub(right))
}

#[tactic(auto, using(crate::proofs::Clamping::clamped_to))]
fn product(left: Option<i64>, right: Option<i64>) -> Option<i64>
    ensures { result ≡ values.on_both (λ x y. clamped (x *ℤ y)) left right }
{
    let (left, right) = (left?, right?);
    Some(left.saturating_mul(right))
}

#[tactic(auto, using(crate::proofs::Clamping::clamped_negative))]
pub(crate) fn negative(number: Option<i64>) -> Option<i64>
    ensures { result ≡ option_map (λ n. clamped (neg_ℤ n)) number }
{
    Some(0i64.saturating_sub(number?))
}
