//! Which text occurs most or least often. Each text is compared with each: a task has eight sub tasks
//! at most.
ghost use Rattle.std.specs.Prelude.{◌≡◌, max, min, not, false, bytes_eq, fold, length, option_map, All};
ghost use Rattle.std.specs.Option.{option_map_or};
ghost use Rattle.ht_base.specs.declared.kind.Kind.TheVariants as kind;
ghost use Rattle.ht_base.specs.Kinds.{kind_of_value};
ghost use Rattle.ht_aggregate.specs.Frequencies as spec;
ghost use Rattle.ht_aggregate.specs.Frequencies.{IsElected, IsLeastFrequent, IsMostFrequent};
ghost use Rattle.ht_aggregate.specs.Searching as searching;
ghost use Rattle.ht_aggregate.specs.Searching.{IsOneOrNone, OccursAlone, counts};
ghost use Rattle.ht_aggregate.specs.Given.{texts};

use crate::given::text_in;
use crate::voting::is_enough;
use ht_base::Value;

/// The text that occurs more often than each other.
pub(crate) fn most_frequent(values: &[Value]) -> Option<&str>
    ensures { IsOneOrNone (IsMostFrequent (texts values.now)) (option_map (λ t. t.now) result) }
{
    only_one(values, greatest_count(values))
}

/// The text that occurs less often than each other that occurs.
pub(crate) fn least_frequent(values: &[Value]) -> Option<&str>
    ensures { IsOneOrNone (IsLeastFrequent (texts values.now)) (option_map (λ t. t.now) result) }
{
    only_one(values, least_count(values))
}

/// The most frequent text, where more than this percent of the texts are it.
pub(crate) fn elected(percent: u8, values: &[Value]) -> Option<&str>
    requires { All (λ v. kind_of_value v ≡ kind.Text) values.now }
    ensures { IsOneOrNone (IsElected percent (texts values.now)) (option_map (λ t. t.now) result) }
{
    match most_frequent(values) {
        Some(text) => {
            if is_enough(percent, times(text, values), values.len()) {
                Some(text)
            } else {
                None
            }
        }
        None => None,
    }
}

// How often a text occurs that does so most often.
fn greatest_count(values: &[Value]) -> usize
    ensures { result ≡ fold max 0 (counts (texts values.now)) }
{
    let mut greatest = 0;
    for value in values {
        if let Some(text) = text_in(value) {
            greatest = greatest.max(times(text, values));
        }
    }
    greatest
}

// How often a text occurs that does so least often.
fn least_count(values: &[Value]) -> usize
    ensures { result ≡ fold min (length values.now) (counts (texts values.now)) }
{
    let mut least = values.len();
    for value in values {
        if let Some(text) = text_in(value) {
            least = least.min(times(text, values));
        }
    }
    least
}

// The text that occurs so many times, if one alone does.
fn only_one(values: &[Value], count: usize) -> Option<&str>
    ensures { IsOneOrNone (OccursAlone (texts values.now) count) (option_map (λ t. t.now) result) }
{
    let mut found = None;
    for value in values {
        let Some(text) = text_in(value) else { continue };
        if times(text, values) != count {
            continue;
        }
        if is_other(found, text) {
            return None;
        }
        found = Some(text);
    }
    found
}

// Whether a text is found that isn't this one.
fn is_other(found: Option<&str>, text: &str) -> bool
    ensures { result ≡ option_map_or (λ t. not (bytes_eq t text.now))
        (option_map (λ t. t.now) found.entry) false }
{
    match found {
        Some(other) => other != text,
        None => false,
    }
}

fn times(text: &str, values: &[Value]) -> usize
    ensures { result ≡ spec.times text.now (texts values.now) }
{
    values.iter().filter(|value| is_text(value, text)).count()
}

fn is_text(value: &Value, text: &str) -> bool
    ensures { result ≡ searching.is_text text.now value.now }
{
    match value {
        Value::Text(other) => other.as_str() == text,
        Value::Int(_) | Value::Truth(_) | Value::Person(_) | Value::Instant(_) => false,
    }
}
