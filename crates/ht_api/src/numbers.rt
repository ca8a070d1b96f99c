ghost use Rattle.std.specs.Prelude.{◌≡◌};
ghost use Rattle.std.specs.Char.{is_ascii_digit};
ghost use Rattle.std.specs.List.{list_all};
ghost use Rattle.ht_api.specs.Numbers as spec;

use ht_base::{MOST_LISTED, TaskId};

/// The task whose number a text spells in decimal, without leading zeros.
pub(crate) fn task_in(text: &str) -> Option<TaskId>
    ensures { result ≡ spec.task_in text.now }
{
    match numeral_in(text) {
        Some(number) => Some(TaskId(number)),
        None => None,
    }
}

/// How many rows of a list are passed over: 0, or a number without leading zeros.
pub(crate) fn from_in(text: &str) -> Option<u32>
    ensures { result ≡ spec.from_in text.now }
{
    if text == "0" {
        return Some(0);
    }
    numeral_in(text)
}

/// How many rows of a list are told at most, 1 to `MOST_LISTED`.
pub(crate) fn count_in(text: &str) -> Option<u32>
    ensures { result ≡ spec.count_in text.now }
{
    match numeral_in(text) {
        Some(number) => listed(number),
        None => None,
    }
}

fn listed(number: u32) -> Option<u32>
    ensures { result ≡ spec.listed number }
{
    if number <= MOST_LISTED {
        Some(number)
    } else {
        None
    }
}

// A number from 1 on, without leading zeros.
fn numeral_in(text: &str) -> Option<u32>
    ensures { result ≡ spec.numeral_in text.now }
{
    if !is_numeral(text.as_bytes()) {
        return None;
    }
    match text.parse::<u32>() {
        Ok(number) => Some(number),
        Err(_) => None,
    }
}

fn is_numeral(text: &[u8]) -> bool
    ensures { result ≡ spec.is_numeral text.now }
{
    match text.first() {
        Some(first) => *first != b'0' && are_digits(text),
        None => false,
    }
}

fn are_digits(text: &[u8]) -> bool
    ensures { result ≡ list_all is_ascii_digit text.now }
{
    text.iter().all(|byte| byte.is_ascii_digit())
}
