ghost use Rattle.std.specs.Prelude.{◌≡◌, MatchOption};
ghost use Rattle.std.specs.Char.{is_ascii_digit};
ghost use Rattle.std.specs.List.{list_all};
ghost use Rattle.std.specs.Str.Parse.{digits_value};
ghost use Rattle.ht_base.specs.Numbers.{IsNumber};

use crate::MOST_DIGITS;

/// The number that one to six decimal digits spell; `None` where the bytes are anything else.
pub fn number(bytes: &[u8]) -> Option<u32>
    ensures { MatchOption result (IsNumber bytes.now → ⊥)
        (λ n. IsNumber bytes.now × (n ≡ digits_value 10 bytes.now)) }
{
    if bytes.is_empty() || bytes.len() > MOST_DIGITS || !are_digits(bytes) {
        return None;
    }
    Some(value_of(bytes))
}

fn are_digits(bytes: &[u8]) -> bool
    ensures { result ≡ list_all is_ascii_digit bytes.now }
{
    bytes.iter().all(|byte| byte.is_ascii_digit())
}

fn value_of(digits: &[u8]) -> u32
    requires { IsNumber digits.now }
    ensures { result ≡ digits_value 10 digits.now }
{
    let mut value = 0;
    for digit in digits {
        value = value * 10 + u32::from(*digit - b'0');
    }
    value
}
