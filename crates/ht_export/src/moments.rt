ghost use Rattle.std.specs.Prelude.{◌≡◌, ◌≤◌, ◌+◌, ◌/◌, ◌++◌, length, pos};
ghost use Rattle.ht_base.specs.Moment.{last_moment};
ghost use Rattle.jiff_core.specs.Date.{epoch_day};
ghost use Rattle.ht_export.specs.Moments as spec;
ghost use Rattle.ht_export.specs.Moments.{date_text, time_text};
ghost use Rattle.ht_export.specs.Dates.{plain_date};

use arrayvec::ArrayVec;
use ht_base::Moment;
use jiff_core::civil::Date;

const DAY: u64 = 86_400_000;

/// A moment as `YYYY-MM-DDTHH:MM:SS.mmmZ`, in UTC (RFC 3339).
pub(crate) fn moment_text(at: Moment) -> ArrayVec<u8, 24>
    requires { at.0 ≤ last_moment }
    ensures { result.items ≡ spec.moment_text at.0 }
{
    let mut text = ArrayVec::new();
    put(&mut text, &date_digits(date_of(at)));
    put(&mut text, b"T");
    put(&mut text, &time_digits(at.0 % DAY));
    put(&mut text, b"Z");
    text
}

// Puts bytes behind those that are there, for which there is room.
fn put(text: &mut ArrayVec<u8, 24>, bytes: &[u8])
    requires { length text.old.items + length bytes.now ≤ 24 }
    ensures { text.new.items ≡ text.old.items ++ bytes.now }
{
    let _ = text.try_extend_from_slice(bytes);
}

fn date_digits(date: Date) -> [u8; 10]
    ensures { result ≡ date_text (plain_date date) }
{
    let year = u64::from(date.year.unsigned_abs());
    let month = u64::from(date.month);
    let day = u64::from(date.day);
    [
        digit(year / 1_000),
        digit(year / 100),
        digit(year / 10),
        digit(year),
        b'-',
        digit(month / 10),
        digit(month),
        b'-',
        digit(day / 10),
        digit(day),
    ]
}

fn time_digits(time: u64) -> [u8; 12]
    ensures { result ≡ time_text time }
{
    let hour = time / 3_600_000;
    let minute = time / 60_000 % 60;
    let second = time / 1_000 % 60;
    let millisecond = time % 1_000;
    [
        digit(hour / 10),
        digit(hour),
        b':',
        digit(minute / 10),
        digit(minute),
        b':',
        digit(second / 10),
        digit(second),
        b'.',
        digit(millisecond / 100),
        digit(millisecond / 10),
        digit(millisecond),
    ]
}

// The date of a moment.
fn date_of(at: Moment) -> Date
    requires { at.0 ≤ last_moment }
    ensures { epoch_day result ≡ pos (at.0 / 86400000) }
{
    match Date::from_unix_epoch_day((at.0 / DAY) as i64) {
        Ok(date) => date,
        Err(_) => unreachable!(),
    }
}

// The last digit of a number.
fn digit(n: u64) -> u8
    ensures { result ≡ spec.digit n }
{
    b'0' + (n % 10) as u8
}
