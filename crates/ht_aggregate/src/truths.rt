//! What truth values give together.
ghost use Rattle.std.specs.Prelude.{◌≡◌, ◌↔◌, All, IsTrue};
ghost use Rattle.ht_base.specs.declared.kind.Kind.TheVariants as kind;
ghost use Rattle.ht_base.specs.Kinds.{kind_of_value};
ghost use Rattle.ht_aggregate.specs.Given.{truths};
ghost use Rattle.ht_aggregate.specs.Truths as spec;
ghost use Rattle.ht_aggregate.specs.Truths.{AreAllTrue, AreForTrue, IsAnyTrue};

use crate::given::truth_in;
use crate::voting::is_enough;
use ht_base::Value;

pub(crate) fn all(values: &[Value]) -> bool
    ensures { IsTrue result ↔ AreAllTrue (truths values.now) }
{
    trues(values) > 0 && falses(values) == 0
}

pub(crate) fn any(values: &[Value]) -> bool
    ensures { IsTrue result ↔ IsAnyTrue (truths values.now) }
{
    trues(values) > 0
}

/// Whether more are true than false, and more than this percent of them.
pub(crate) fn vote(percent: u8, values: &[Value]) -> bool
    requires { All (λ v. kind_of_value v ≡ kind.Truth) values.now }
    ensures { IsTrue result ↔ AreForTrue percent (truths values.now) }
{
    let trues = trues(values);
    trues > falses(values) && is_enough(percent, trues, values.len())
}

fn trues(values: &[Value]) -> usize
    ensures { result ≡ spec.trues (truths values.now) }
{
    values
        .iter()
        .filter_map(truth_in)
        .filter(|truth| *truth)
        .count()
}

fn falses(values: &[Value]) -> usize
    ensures { result ≡ spec.falses (truths values.now) }
{
    values
        .iter()
        .filter_map(truth_in)
        .filter(|truth| !*truth)
        .count()
}
