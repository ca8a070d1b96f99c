//! What whole numbers give together.
ghost use Rattle.std.specs.Prelude.{◌≡◌, ◌-◌, ◌*◌, ◌^◌, pos, neg_ℤ, ◌≤ℤ◌, [], length, MatchOption, All};
ghost use Rattle.ht_base.specs.declared.kind.Kind.TheVariants as kind;
ghost use Rattle.ht_base.specs.Integers.{clamped};
ghost use Rattle.ht_base.specs.Kinds.{kind_of_value};
ghost use Rattle.ht_aggregate.specs.Given.{numbers};
ghost use Rattle.ht_aggregate.specs.Numbers as spec;
ghost use Rattle.ht_aggregate.specs.Numbers.{IsAverage, IsGreatest, IsLeast};

use crate::given::number_in;
use ht_base::Value;

pub(crate) fn least(values: &[Value]) -> Option<i64>
    ensures { MatchOption result (numbers values.now ≡ []) (IsLeast (numbers values.now)) }
{
    values.iter().filter_map(number_in).min()
}

pub(crate) fn greatest(values: &[Value]) -> Option<i64>
    ensures { MatchOption result (numbers values.now ≡ []) (IsGreatest (numbers values.now)) }
{
    values.iter().filter_map(number_in).max()
}

/// The exact sum, or the nearest number of 64 bits.
pub(crate) fn sum(values: &[Value]) -> i64
    ensures { result ≡ clamped (spec.total (numbers values.now)) }
{
    total(values).clamp(i128::from(i64::MIN), i128::from(i64::MAX)) as i64
}

/// The exact sum divided by how many they are, rounded down.
pub(crate) fn average(values: &[Value]) -> Option<i64>
    requires { All (λ v. kind_of_value v ≡ kind.Int) values.now }
    ensures { MatchOption result (numbers values.now ≡ []) (IsAverage (numbers values.now)) }
{
    if values.is_empty() {
        return None;
    }
    Some(total(values).div_euclid(values.len() as i128) as i64)
}

// The exact sum. It fits, since no more than 2^63 values fit into memory.
fn total(values: &[Value]) -> i128
    ensures sum { result ≡ spec.total (numbers values.now) }
    ensures least { neg_ℤ (pos (2 ^ 63 * length values.now)) ≤ℤ result }
    ensures most { result ≤ℤ pos ((2 ^ 63 - 1) * length values.now) }
{
    let mut total = 0;
    for value in values {
        if let Some(number) = number_in(value) {
            total += i128::from(number);
        }
    }
    total
}
