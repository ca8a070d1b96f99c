//! The values of one kind among others.
ghost use Rattle.std.specs.Prelude.{◌≡◌, option_map};
ghost use Rattle.ht_aggregate.specs.Given as given;

use ht_base::Value;

pub(crate) fn text_in(value: &Value) -> Option<&str>
    ensures { option_map (λ t. t.now) result ≡ given.text_in value.now }
{
    match value {
        Value::Text(text) => Some(text.as_str()),
        Value::Int(_) | Value::Truth(_) | Value::Person(_) | Value::Instant(_) => None,
    }
}

pub(crate) fn truth_in(value: &Value) -> Option<bool>
    ensures { result ≡ given.truth_in value.now }
{
    match value {
        Value::Truth(truth) => Some(*truth),
        Value::Text(_) | Value::Int(_) | Value::Person(_) | Value::Instant(_) => None,
    }
}

pub(crate) fn number_in(value: &Value) -> Option<i64>
    ensures { result ≡ given.number_in value.now }
{
    match value {
        Value::Int(number) => Some(*number),
        Value::Text(_) | Value::Truth(_) | Value::Person(_) | Value::Instant(_) => None,
    }
}
