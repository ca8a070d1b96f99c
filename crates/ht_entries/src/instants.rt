ghost use Rattle.std.specs.Prelude.{◌≡◌, ◌≤◌, MatchOption, IfSome, Some, pos, unsigned_abs};
ghost use Rattle.std.specs.Str.Parse.{digits_value};
ghost use Rattle.jiff_core.specs.Calendar.{IsDate, IsEpochDay, days_from_civil};
ghost use Rattle.jiff_core.specs.Date.{IsYmd, epoch_day};
ghost use Rattle.ht_base.specs.Moment.{last_moment};
ghost use Rattle.ht_entries.specs.Instants.{InstantText, IsInstant, IsDay, IsTime, day_number, time_of_day, moment_of, is_marked};

use ht_base::{Moment, number};
use jiff_core::civil::Date;

const LENGTH: usize = 20;

const DAY: u64 = 86_400_000;

/// The moment of an instant's text, `2026-03-02T09:00:00Z` for instance; `None` where the text is
/// none.
///
/// It has 20 bytes. The year is from 1970, the date one of the calendar, and the time one from
/// 00:00:00 to 23:59:59, in UTC.
pub fn instant(text: &str) -> Option<Moment>
    ensures reads { (i : InstantText) → IsInstant text.now i
        → result ≡ Some (record { 0 = moment_of i }) }
    ensures exact { IfSome result
        (λ at. (i : InstantText) × IsInstant text.now i × (at.0 ≡ moment_of i)) }
    ensures since_1970 { IfSome result (λ at.
        (i : InstantText) → IsInstant text.now i
        → days_from_civil (pos (digits_value 10 i.year)) (digits_value 10 i.month)
        (digits_value 10 i.day) ≡ pos (day_number i.year i.month i.day)) }
    ensures last { IfSome result (λ at. at.0 ≤ last_moment) }
{
    let bytes = text.as_bytes();
    if !is_marked(bytes) {
        return None;
    }
    let day = day_of(&bytes[..4], &bytes[5..7], &bytes[8..10])?;
    let time = time_of(&bytes[11..13], &bytes[14..16], &bytes[17..19])?;
    Some(Moment(u64::from(day) * DAY + time))
}

fn is_marked(bytes: &[u8]) -> bool
    ensures { result ≡ is_marked bytes.now }
{
    bytes.len() == LENGTH
        && bytes[4] == b'-'
        && bytes[7] == b'-'
        && bytes[10] == b'T'
        && bytes[13] == b':'
        && bytes[16] == b':'
        && bytes[19] == b'Z'
}

// How many days lie between 1970-01-01 and the day.
fn day_of(year: &[u8], month: &[u8], day: &[u8]) -> Option<u32>
    ensures exact { MatchOption result (IsDay year.now month.now day.now → ⊥)
        (λ n. IsDay year.now month.now day.now × (n ≡ day_number year.now month.now day.now)) }
    ensures few { IfSome result (λ n. n ≤ 2932896) }
{
    let date = date_of(number(year)?, number(month)?, number(day)?)?;
    Some(days_to(date))
}

// The date, from 1970 on.
fn date_of(year: u32, month: u32, day: u32) -> Option<Date>
    ensures { MatchOption result (1970 ≤ year → IsDate (pos year) (pos month) (pos day) → ⊥)
        (λ date.
        (1970 ≤ year) × IsDate (pos year) (pos month) (pos day)
        × IsYmd (pos year) (pos month) (pos day) date) }
{
    if year < 1970 || year > 9999 || month > 12 || day > 31 {
        return None;
    }
    Date::new(year as i16, month as i8, day as i8).ok()
}

fn days_to(date: Date) -> u32
    ensures exact { result ≡ unsigned_abs (epoch_day date) }
    ensures few { IsEpochDay (epoch_day date) }
{
    date.to_unix_epoch_day().unsigned_abs()
}

// The milliseconds from midnight.
fn time_of(hour: &[u8], minute: &[u8], second: &[u8]) -> Option<u64>
    ensures exact { MatchOption result (IsTime hour.now minute.now second.now → ⊥)
        (λ n.
        IsTime hour.now minute.now second.now
        × (n ≡ time_of_day hour.now minute.now second.now)) }
    ensures few { IfSome result (λ n. n ≤ 86399000) }
{
    let (hours, minutes, seconds) = (number(hour)?, number(minute)?, number(second)?);
    if hours > 23 || minutes > 59 || seconds > 59 {
        return None;
    }
    Some(u64::from(hours * 3600 + minutes * 60 + seconds) * 1000)
}
