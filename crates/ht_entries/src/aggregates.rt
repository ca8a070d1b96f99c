ghost use Rattle.std.specs.Prelude.{◌≡◌, IfOk, option_map};
ghost use Rattle.ht_toml.specs.Values.{meaning};
ghost use Rattle.ht_entries.specs.Aggregates as spec;

use ht_base::{How, LONGEST_DELIMITER, Txt};
use ht_toml::{Shape, whole_of};
use std::alloc::{AllocError, Global};
use std::marker::Model;
use toml::Value;

/// The least part of a hundred that a vote must pass.
#[derive(Drop)]
pub struct Percent(pub u8);

impl Model for Percent {
    ghost use Rattle.std.specs.Prelude.{ℕ};

    ghost Value = { ℕ };

    ghost view = { λ p. p.0 };
}

impl Shape for Percent {
    ghost use Rattle.ht_entries.specs.Aggregates.{percent_of};

    ghost of = { percent_of };

    fn read(_alloc: Global, value: &Value) -> Result<Option<Percent>, AllocError> {
        match whole_of(value, 0, 100) {
            Some(number) => Ok(Some(Percent(number as u8))),
            None => Ok(None),
        }
    }
}

/// What stands between each two texts: at most [`LONGEST_DELIMITER`] bytes.
#[derive(Drop)]
pub struct Delimiter(pub Txt);

impl Model for Delimiter {
    ghost use Rattle.std.specs.Prelude.{ℕ, List};

    ghost Value = { List ℕ };

    ghost view = { λ d. d.0 };
}

impl Shape for Delimiter {
    ghost use Rattle.ht_entries.specs.Aggregates.{delimiter_of};

    ghost of = { delimiter_of };

    fn read(alloc: Global, value: &Value) -> Result<Option<Delimiter>, AllocError> {
        match value.as_str() {
            Some(text) => short_text(alloc, text),
            None => Ok(None),
        }
    }
}

fn short_text(alloc: Global, text: &str) -> Result<Option<Delimiter>, AllocError>
    ensures { IfOk result (λ delimiter. delimiter ≡ spec.delimiter text.now) }
{
    if text.len() > LONGEST_DELIMITER {
        return Ok(None);
    }
    match Txt::of(alloc, text) {
        Ok(text) => Ok(Some(Delimiter(text))),
        Err(_) => Err(AllocError),
    }
}

/// The aggregate that a word names, with the percent or the delimiter that is given beside it.
pub fn how_of(word: &str, percent: Option<Percent>, delimiter: Option<Delimiter>) -> Option<How>
    ensures { result ≡ spec.how_of word.now percent delimiter }
{
    match (percent, delimiter) {
        (None, None) => alone(word),
        (Some(percent), None) => by_percent(word, percent),
        (None, Some(delimiter)) => by_delimiter(word, delimiter),
        (Some(_), Some(_)) => None,
    }
}

fn alone(word: &str) -> Option<How>
    ensures { result ≡ meaning spec.alone word.now }
{
    match word {
        "concat" => Some(How::Concat),
        "mostFrequent" => Some(How::MostFrequent),
        "leastFrequent" => Some(How::LeastFrequent),
        "and" => Some(How::And),
        "or" => Some(How::Or),
        "min" => Some(How::Min),
        "max" => Some(How::Max),
        "sum" => Some(How::Sum),
        "avg" => Some(How::Avg),
        _ => None,
    }
}

fn by_percent(word: &str, percent: Percent) -> Option<How>
    ensures { result ≡ option_map (λ h. h percent) (meaning spec.by_percent word.now) }
{
    match word {
        "vote" => Some(How::Vote(percent.0)),
        "voteOnString" => Some(How::VoteOnString(percent.0)),
        _ => None,
    }
}

fn by_delimiter(word: &str, delimiter: Delimiter) -> Option<How>
    ensures { result ≡ option_map (λ h. h delimiter) (meaning spec.by_delimiter word.now) }
{
    match word {
        "concatWithDelimiter" => Some(How::ConcatWithDelimiter(delimiter.0)),
        _ => None,
    }
}
