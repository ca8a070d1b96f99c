ghost use Rattle.std.specs.Prelude.{◌≡◌, map};
ghost use Rattle.toml.specs.View.{view};
ghost use Rattle.ht_toml.specs.Keys.{exactly_one};
ghost use Rattle.ht_toml.specs.Values as spec;

use toml::Value;

/// What a value means that is one of these words.
pub fn word_of<T: Copy>(value: &Value, words: &[(&str, T)]) -> Option<T>
    ensures { result ≡ spec.word_of (map (λ w. (w.0.now, w.1)) words.now) (view value.now) }
{
    meaning(value.as_str()?, words)
}

fn meaning<T: Copy>(text: &str, words: &[(&str, T)]) -> Option<T>
    ensures { result ≡ spec.meaning (map (λ w. (w.0.now, w.1)) words.now) text.now }
{
    for word in words {
        if word.0 == text {
            return Some(word.1);
        }
    }
    None
}

/// A whole number of a range.
pub fn whole_of(value: &Value, least: u64, most: u64) -> Option<u64>
    ensures { result ≡ spec.whole_of least most (view value.now) }
{
    within(value.as_integer()?, least, most)
}

fn within(number: i64, least: u64, most: u64) -> Option<u64>
    ensures { result ≡ spec.within least most number }
{
    if number < 0 {
        return None;
    }
    let number = number as u64;
    if least <= number && number <= most {
        Some(number)
    } else {
        None
    }
}

/// Whether exactly one of these is there.
pub fn exactly_one(given: &[bool]) -> bool
    ensures { result ≡ exactly_one given.now }
{
    let mut count = 0usize;
    for is_given in given {
        if *is_given {
            count += 1;
        }
    }
    count == 1
}
