ghost use Rattle.std.specs.Prelude.{◌≡◌, ◌<◌, ◌≤◌, ◌==◌, ◌∷◌, IsTrue, MatchOption, Some, false};
ghost use Rattle.std.specs.Char.{is_ascii_alphabetic, is_ascii_digit};
ghost use Rattle.std.specs.List.{prefix_len};
ghost use Rattle.std.specs.Str.Parse.{digits_value};
ghost use Rattle.ht_expr.specs.Scanning.{is_of, begins_mark, Finds, IsBehindBlanks, IsRun, Scans};
ghost use Rattle.ht_expr.specs.Tokens.{begins, is_digits, greatest_number, quotation_mark};

use crate::ExprRefusal;
use crate::token::{Mark, Placed, Token};
use ht_base::MOST_TOKENS;
use std::alloc::Global;

/// The greatest number that is a token.
const GREATEST: u64 = i64::MAX as u64;

/// A class of bytes that stand together.
#[derive(Clone, Copy)]
enum Class {
    Blank,
    Digit,
    /// What a word goes on with.
    Word,
    /// What stands between quotation marks.
    Inside,
}

impl Class {
    fn has(self, byte: u8) -> bool
        ensures { result ≡ is_of self byte }
    {
        match self {
            Class::Blank => byte == b' ',
            Class::Digit => byte.is_ascii_digit(),
            Class::Word => byte.is_ascii_alphanumeric() || byte == b'_',
            Class::Inside => byte >= b' ' && byte != b'\'',
        }
    }
}

/// The tokens of a text in their order, of which there are at most [`MOST_TOKENS`].
pub(crate) fn tokens(alloc: Global, text: &str) -> Result<Vec<Placed<'_>>, ExprRefusal>
    ensures { Scans text.now result }
{
    let mut tokens = Vec::new(alloc);
    let mut is_too_long = false;
    let mut rest = behind_blanks(text);
    while !rest.is_empty() {
        let at = text.len() - rest.len();
        let Some((token, behind)) = first_token(rest) else {
            return Err(ExprRefusal::Token(at));
        };
        if tokens.len() < MOST_TOKENS {
            tokens.push(Placed { token, at })?;
        } else {
            is_too_long = true;
        }
        rest = behind_blanks(behind);
    }
    if is_too_long {
        return Err(ExprRefusal::TooLong);
    }
    Ok(tokens)
}

fn behind_blanks(text: &str) -> &str
    ensures { IsBehindBlanks text.now result.now }
{
    split_run(text, Class::Blank).1
}

/// The token that a text begins with, and what stands behind it.
fn first_token(text: &str) -> Option<(Token<'_>, &str)>
    ensures { Finds text.now result }
{
    let first = *text.as_bytes().first()?;
    match first {
        b'0'..=b'9' => number(text),
        b'A'..=b'Z' | b'a'..=b'z' => Some(word(text)),
        b'\'' => quoted(text),
        _ => mark(text),
    }
}

fn number(text: &str) -> Option<(Token<'_>, &str)>
    requires { IsTrue (begins is_ascii_digit text.now) }
    ensures { Finds text.now result }
{
    let (digits, rest) = split_run(text, Class::Digit);
    let number = value_of(digits)?;
    Some((Token::Number(number), rest))
}

// The number that digits spell, unless it is too great for a token.
fn value_of(digits: &str) -> Option<u64>
    requires { IsTrue (is_digits digits.now) }
    ensures { MatchOption result (greatest_number < digits_value 10 digits.now)
        (λ n. (digits_value 10 digits.now ≡ n) × (n ≤ greatest_number)) }
{
    let number = digits.parse::<u64>().ok()?;
    if number <= GREATEST {
        Some(number)
    } else {
        None
    }
}

fn word(text: &str) -> (Token<'_>, &str)
    requires { IsTrue (begins is_ascii_alphabetic text.now) }
    ensures { Finds text.now (Some result) }
{
    let (word, rest) = split_run(text, Class::Word);
    (Token::Word(word), rest)
}

fn quoted(text: &str) -> Option<(Token<'_>, &str)>
    requires { IsTrue (begins (λ b. b == quotation_mark) text.now) }
    ensures { Finds text.now result }
{
    let inside = behind_mark(text)?;
    let (quoted, closing) = split_run(inside, Class::Inside);
    let rest = behind_mark(closing)?;
    Some((Token::Quoted(quoted), rest))
}

// What stands behind the quotation mark that a text begins with.
fn behind_mark(text: &str) -> Option<&str>
    ensures { MatchOption result (begins (λ b. b == quotation_mark) text.now ≡ false)
        (λ rest. text.now ≡ quotation_mark ∷ rest.now) }
{
    text.strip_prefix('\'')
}

fn mark(text: &str) -> Option<(Token<'_>, &str)>
    requires { IsTrue (begins begins_mark text.now) }
    ensures { Finds text.now result }
{
    let mark = Mark::first_of(text.as_bytes())?;
    let (_, rest) = text.split_at(mark.as_str().len());
    Some((Token::Mark(mark), rest))
}

// The bytes of a class that a text begins with, and what stands behind them.
fn split_run(text: &str, class: Class) -> (&str, &str)
    ensures { IsRun (is_of class) text.now result.0.now result.1.now }
{
    text.split_at(run_length(text.as_bytes(), class))
}

fn run_length(bytes: &[u8], class: Class) -> usize
    ensures { result ≡ prefix_len (is_of class) bytes.now }
{
    bytes.iter().take_while(|byte| class.has(**byte)).count()
}
