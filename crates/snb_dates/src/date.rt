//! Dates and days, as milliseconds since 1970-01-01 UTC.

ghost use Rattle.std.specs.Prelude.{◌≡◌, ◌+◌, ◌*◌, ◌<◌, ◌≤◌, ◌-◌, ℕ, IfSome, MatchOption};
ghost use Rattle.std.specs.Option.{SomeIff};
ghost use Rattle.snb_base.specs.Calendar.{IsDigit, IsRealDay, SpellsDay, SpellsMoment, SpellsTime, day_number};
ghost use Rattle.snb_base.specs.Spellings.{Date, Day};

use jiff::civil::Date as CivilDate;
use snb_base::{LAST_TIME, read_number};

/// The milliseconds from 1970-01-01T00:00:00 UTC to the moment that the text spells, at most
/// `LAST_TIME`: either in words, `YYYY-MM-DDThh:mm:ss.mmm+0000` as LDBC SNB's
/// data format writes a moment of ISO 8601's (the proleptic Gregorian) calendar in UTC, or as that
/// number. None exactly where the text spells no such moment. Takes no memory.
pub fn read_date(text: &[u8]) -> Option<u64>
    ensures { MatchOption result ((n : ℕ) → ¬ Date text.now n) (Date text.now) }
{
    if text.len() > 4 && text[4] == b'-' {
        read_spelled_moment(text)
    } else {
        read_number(text, LAST_TIME)
    }
}

/// The milliseconds from 1970-01-01 to the midnight, in UTC, of the day that the text spells, at
/// most `LAST_TIME`: either in words, `YYYY-MM-DD` as LDBC SNB's data format writes a day of ISO
/// 8601's (the proleptic Gregorian) calendar, or as a number of milliseconds. None exactly where the
/// text spells neither. Takes no memory.
pub fn read_day(text: &[u8]) -> Option<u64>
    ensures { MatchOption result ((n : ℕ) → ¬ Day text.now n) (Day text.now) }
{
    if text.len() > 4 && text[4] == b'-' {
        read_spelled_day(text)
    } else {
        read_number(text, LAST_TIME)
    }
}

// The day number of a civil date from 1970 on.
fn civil_day(year: u16, month: u8, day: u8) -> Option<u32>
    requires years { year < 10000 }
    requires months { month < 100 }
    requires days { day < 100 }
    ensures exact { SomeIff result (IsRealDay year month day) (day_number year month day) }
    ensures last { IfSome result (λ n. n ≤ 2932896) }
{
    if year < 1970 {
        return None;
    }
    match CivilDate::new(year as i16, month as i8, day as i8) {
        Ok(date) => Some(date.to_plain().to_unix_epoch_day() as u32),
        Err(_) => None,
    }
}

// The number that two digits spell.
fn two_digits(a: u8, b: u8) -> Option<u8>
    ensures { SomeIff result (IsDigit a × IsDigit b) (10 * (a - 48) + (b - 48)) }
{
    if a.is_ascii_digit() && b.is_ascii_digit() {
        Some(10 * (a - b'0') + (b - b'0'))
    } else {
        None
    }
}

// The milliseconds from 1970-01-01 to the midnight of a day spelled `YYYY-MM-DD`.
fn read_spelled_day(text: &[u8]) -> Option<u64>
    ensures last { IfSome result (λ n. n ≤ 253402214400000) }
    ensures spelled { MatchOption result ((n : ℕ) → ¬ SpellsDay text.now n) (SpellsDay text.now) }
{
    if text.len() != 10 || text[4] != b'-' || text[7] != b'-' {
        return None;
    }
    let high = two_digits(text[0], text[1])?;
    let low = two_digits(text[2], text[3])?;
    let month = two_digits(text[5], text[6])?;
    let day = two_digits(text[8], text[9])?;
    let year = u16::from(high) * 100 + u16::from(low);
    let days = civil_day(year, month, day)?;
    Some(u64::from(days) * 86_400_000)
}

// The milliseconds since midnight of a time of day spelled `Thh:mm:ss.mmm+0000`.
fn read_spelled_time(text: &[u8]) -> Option<u32>
    ensures last { IfSome result (λ n. n ≤ 86399999) }
    ensures spelled { MatchOption result ((n : ℕ) → ¬ SpellsTime text.now n) (SpellsTime text.now) }
{
    if text.len() != 18
        || text[0] != b'T'
        || text[3] != b':'
        || text[6] != b':'
        || text[9] != b'.'
    {
        return None;
    }
    if text[13] != b'+'
        || text[14] != b'0'
        || text[15] != b'0'
        || text[16] != b'0'
        || text[17] != b'0'
    {
        return None;
    }
    if !text[10].is_ascii_digit() {
        return None;
    }
    let hour = two_digits(text[1], text[2])?;
    let minute = two_digits(text[4], text[5])?;
    let second = two_digits(text[7], text[8])?;
    let millis = u32::from(text[10] - b'0') * 100 + u32::from(two_digits(text[11], text[12])?);
    if hour > 23 || minute > 59 || second > 59 {
        return None;
    }
    Some(
        u32::from(hour) * 3_600_000
            + u32::from(minute) * 60_000
            + u32::from(second) * 1_000
            + millis,
    )
}

// The milliseconds from 1970-01-01T00:00:00 UTC to a moment spelled `YYYY-MM-DDThh:mm:ss.mmm+0000`.
fn read_spelled_moment(text: &[u8]) -> Option<u64>
    ensures last { IfSome result (λ n. n ≤ LAST_TIME) }
    ensures spelled { MatchOption result ((n : ℕ) → ¬ SpellsMoment text.now n) (SpellsMoment text.now) }
{
    if text.len() < 10 {
        return None;
    }
    let (day, time) = text.split_at(10);
    let midnight = read_spelled_day(day)?;
    let since = read_spelled_time(time)?;
    Some(midnight + u64::from(since))
}
