//! Counts of sub tasks. There are fewer than a number of 64 bits can count.
ghost use Rattle.std.specs.Prelude.{◌≡◌, option_map, pos};
ghost use Rattle.ht_value.specs.Environment as environment;

use crate::Subs;
use crate::environment::value_at;
use ht_base::{Txt, Value};
use ht_expr::Count;

/// How many sub tasks there are, have ended, or are completed.
pub(crate) fn counted(count: Count, subs: &Subs) -> i64
    ensures { result ≡ pos (environment.counted count subs.now) }
{
    match count {
        Count::Made => subs.as_slice().len() as i64,
        Count::Finished => finished(subs),
        Count::Done => done(subs),
    }
}

fn finished(subs: &Subs) -> i64
    ensures { result ≡ pos (environment.counted Count.Finished subs.now) }
{
    let mut number: usize = 0;
    for (state, _) in subs.as_slice() {
        if state.is_final() {
            number += 1;
        }
    }
    number as i64
}

fn done(subs: &Subs) -> i64
    ensures { result ≡ pos (environment.counted Count.Done subs.now) }
{
    let mut number: usize = 0;
    for (state, _) in subs.as_slice() {
        if state.is_completed() {
            number += 1;
        }
    }
    number as i64
}

/// How many completed sub tasks have this text in their output part of this name.
pub(crate) fn text_count(part: &Txt, text: &Txt, subs: &Subs) -> i64
    ensures { result ≡ pos (environment.text_count part.now text.now subs.now) }
{
    let mut number: usize = 0;
    for (state, output) in subs.as_slice() {
        if state.is_completed() && is_text(text, value_at(output, part.as_str().as_bytes())) {
            number += 1;
        }
    }
    number as i64
}

/// How many completed sub tasks have a true output part of this name.
pub(crate) fn true_count(part: &Txt, subs: &Subs) -> i64
    ensures { result ≡ pos (environment.true_count part.now subs.now) }
{
    let mut number: usize = 0;
    for (state, output) in subs.as_slice() {
        if state.is_completed() && is_true(value_at(output, part.as_str().as_bytes())) {
            number += 1;
        }
    }
    number as i64
}

fn is_text(text: &Txt, value: Option<&Value>) -> bool
    ensures { result ≡ environment.is_text text.now (option_map (λ v. v.now) value.entry) }
{
    match value {
        Some(value) => match value {
            Value::Text(held) => held.as_str() == text.as_str(),
            Value::Int(_) | Value::Truth(_) | Value::Person(_) | Value::Instant(_) => false,
        },
        None => false,
    }
}

fn is_true(value: Option<&Value>) -> bool
    ensures { result ≡ environment.is_true (option_map (λ v. v.now) value.entry) }
{
    match value {
        Some(value) => match value {
            Value::Truth(truth) => *truth,
            Value::Int(_) | Value::Text(_) | Value::Person(_) | Value::Instant(_) => false,
        },
        None => false,
    }
}
