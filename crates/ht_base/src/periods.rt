ghost use Rattle.std.specs.Prelude.{◌≡◌, ◌≤◌, ◌==◌, ◌∷◌, List, ℕ, Option, position, IfSome, MatchOption, Some};
ghost use Rattle.ht_base.specs.Periods.{TimeText, PeriodText, time_text, marked_time as marked_text, marked_time_millis, IsTime, IsPeriod, time_millis, millis, Begins};
ghost use Rattle.ht_base.specs.declared.limits.TheConstants.{LONGEST_PERIOD};

use crate::number;

const SECOND: u64 = 1_000;

const MINUTE: u64 = 60 * SECOND;

const HOUR: u64 = 60 * MINUTE;

const DAY: u64 = 24 * HOUR;

/// The milliseconds of a period's text, `P1DT2H3M4S` for instance; `None` where the text is none.
///
/// Behind `P` may stand days; and behind `T` hours, minutes and seconds, in this order. Any may be
/// missing, but one is there, and behind `T` too. Each is one to six digits and its letter. A day
/// has 24 hours.
pub fn period(text: &str) -> Option<u64>
    ensures reads { (p : PeriodText) → IsPeriod text.now p → result ≡ Some (millis p) }
    ensures exact { IfSome result (λ ms. (p : PeriodText) × IsPeriod text.now p × (ms ≡ millis p)) }
    ensures most { IfSome result (λ ms. ms ≤ LONGEST_PERIOD) }
{
    let parts = behind(text.as_bytes(), b'P')?;
    if parts.is_empty() {
        return None;
    }
    let (days, rest) = amount(parts, b'D');
    let time = marked_time(rest)?;
    Some(u64::from(days) * DAY + time)
}

// Of what stands behind the days: a time behind `T`, or nothing.
fn marked_time(bytes: &[u8]) -> Option<u64>
    ensures reads { (t : Option TimeText) → IfSome t IsTime → bytes.now ≡ marked_text t
        → result ≡ Some (marked_time_millis t) }
    ensures exact { IfSome result (λ ms.
        (t : Option TimeText) × IfSome t IsTime × (bytes.now ≡ marked_text t)
        × (ms ≡ marked_time_millis t)) }
    ensures most { IfSome result (λ ms. ms ≤ 3660996339000) }
{
    if bytes.is_empty() {
        return Some(0);
    }
    time(behind(bytes, b'T')?)
}

// Of hours, minutes and seconds.
fn time(bytes: &[u8]) -> Option<u64>
    ensures reads { (t : TimeText) → IsTime t → bytes.now ≡ time_text t
        → result ≡ Some (time_millis t) }
    ensures exact { IfSome result
        (λ ms. (t : TimeText) × IsTime t × (bytes.now ≡ time_text t) × (ms ≡ time_millis t)) }
    ensures most { IfSome result (λ ms. ms ≤ 3660996339000) }
{
    let (hours, behind_hours) = amount(bytes, b'H');
    let (minutes, behind_minutes) = amount(behind_hours, b'M');
    let (seconds, rest) = amount(behind_minutes, b'S');
    if bytes.is_empty() || !rest.is_empty() {
        return None;
    }
    Some(u64::from(hours) * HOUR + u64::from(minutes) * MINUTE + u64::from(seconds) * SECOND)
}

// The amount of this letter that the bytes begin with, and what is behind it; or 0, and all bytes.
fn amount(bytes: &[u8], letter: u8) -> (u32, &[u8])
    requires { 58 ≤ letter }
    ensures { Begins letter bytes.now result.0 result.1.now }
{
    let Some(end) = place_of(bytes, letter) else {
        return (0, bytes);
    };
    match number(&bytes[..end]) {
        Some(value) => (value, &bytes[end + 1..]),
        None => (0, bytes),
    }
}

fn place_of(bytes: &[u8], letter: u8) -> Option<usize>
    ensures { result ≡ position (λ b. b == letter) bytes.now }
{
    bytes.iter().position(|byte| *byte == letter)
}

// What stands behind the letter that the bytes begin with.
fn behind(bytes: &[u8], letter: u8) -> Option<&[u8]>
    ensures { MatchOption result ((rest : List ℕ) → bytes.now ≡ letter ∷ rest → ⊥)
        (λ rest. bytes.now ≡ letter ∷ rest.now) }
{
    if bytes.is_empty() || bytes[0] != letter {
        return None;
    }
    Some(&bytes[1..])
}
