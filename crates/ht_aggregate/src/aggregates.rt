//! One value of many.
ghost use Rattle.std.specs.Prelude.{◌≡◌, ◌↔◌, [], unwrap_or, option_map, All, IfOk, IsNone};
ghost use Rattle.ht_base.specs.Kinds.{kind_of_how, kind_of_value};
ghost use Rattle.ht_aggregate.specs.Aggregates.{IsAggregate, IsText, NeedsValues};

use crate::frequencies::{elected, least_frequent, most_frequent};
use crate::joining::joined;
use crate::{numbers, truths};
use ht_base::{How, Memory, Txt, Value, ValueList};
use std::alloc::Global;

/// What the values of sub tasks, in their order, give together (WS-HumanTask 1.1, 4.8). They are all of
/// the kind that the aggregate takes. The least, the greatest and the average of no values are none.
pub fn aggregate(alloc: Global, how: &How, values: &ValueList) -> Result<Option<Value>, Memory>
    requires { All (λ v. kind_of_value v ≡ kind_of_how how.now) values.now }
    ensures value { IfOk result (IsAggregate how.now values.now) }
    ensures none { IfOk result (λ r. IsNone r ↔ (NeedsValues how.now × (values.now ≡ []))) }
{
    let values = values.as_slice();
    match how {
        How::Concat => Ok(Some(Value::Text(joined(alloc, "", values)?))),
        How::ConcatWithDelimiter(delimiter) => {
            Ok(Some(Value::Text(joined(alloc, delimiter.as_str(), values)?)))
        }
        How::MostFrequent => text_or_empty(alloc, most_frequent(values)),
        How::LeastFrequent => text_or_empty(alloc, least_frequent(values)),
        How::VoteOnString(percent) => text_or_empty(alloc, elected(*percent, values)),
        How::And => Ok(Some(Value::Truth(truths::all(values)))),
        How::Or => Ok(Some(Value::Truth(truths::any(values)))),
        How::Vote(percent) => Ok(Some(Value::Truth(truths::vote(*percent, values)))),
        How::Min => Ok(numbers::least(values).map(Value::Int)),
        How::Max => Ok(numbers::greatest(values).map(Value::Int)),
        How::Sum => Ok(Some(Value::Int(numbers::sum(values)))),
        How::Avg => Ok(numbers::average(values).map(Value::Int)),
    }
}

// The text, or the empty one.
fn text_or_empty(alloc: Global, text: Option<&str>) -> Result<Option<Value>, Memory>
    ensures { IfOk result (IsText (λ t. t ≡ unwrap_or (option_map (λ t. t.now) text.entry) [])) }
{
    Ok(Some(Value::Text(Txt::of(alloc, text.unwrap_or(""))?)))
}
