//! Ratios of a run's time to a schedule's.

ghost use Rattle.std.specs.Prelude.{◌≡◌, ◌≢◌, ℕ, ◌≤◌, ◌∷◌, ◌++◌, MatchOption};
ghost use Rattle.std.specs.List.{All};
ghost use Rattle.snb_base.specs.Spellings.{last_time};
ghost use Rattle.snb_ratio.specs.Ratios.{SpellsPart, SpellsMillionths, SpellsRatio, due_of, most_millionths, real_time};

use snb_base::{LAST_AT, read_number};
use std::marker::Model;

/// The greatest whole part of a text that is tried as a ratio.
pub const MOST_UNITS: u64 = 9999;

/// The greatest ratio, in millionths: 1000.
pub const MOST_MILLIONTHS: u64 = 1000000000;

/// A ratio from 0.000001 to 1000: a run's time for a span of its schedule's time, as the driver of
/// LDBC SNB has it (its time compression ratio). Its meaning is the number of millionths.
#[derive(Clone, Copy)]
pub struct Ratio {
    num: u32,
}

impl Model for Ratio {
    ghost Value = { ℕ };

    ghost view = { λ r. r.num };

    ghost invariant = { λ r. (1 ≤ r.num) × (r.num ≤ most_millionths) };

    ghost inverse = { λ num. record { num = num } };
}

impl Ratio {
    /// The ratio 1, under which a run takes as long as its schedule.
    pub fn one() -> Ratio
        ensures { result ≡ real_time }
    {
        Ratio { num: 1_000_000 }
    }

    /// The ratio that the text spells: a whole number of at most four decimal digits without a
    /// leading zero, unless it is `0`, and after it nothing, or a point and one to six decimal
    /// digits; from 0.000001 to 1000. None exactly where the text spells none. Takes no memory.
    pub fn read(text: &[u8]) -> Option<Ratio>
        ensures { MatchOption result ((num : ℕ) → ¬ SpellsRatio text.now num) (SpellsRatio text.now) }
    {
        let num = read_millionths(text)?;
        if num == 0 || num > MOST_MILLIONTHS {
            return None;
        }
        Some(Ratio { num: num as u32 })
    }

    /// When an operation is due, in milliseconds after a run's start: it is planned for the moment
    /// `t` of a schedule that begins at `t0`, both in milliseconds since 1970-01-01 UTC. The span
    /// between them, multiplied by the ratio, is rounded down to whole milliseconds. `t` is no earlier
    /// than `t0`, and at most `LAST_TIME`.
    pub fn due(&self, t0: u64, t: u64) -> u64
        requires order { t0 ≤ t }
        requires last { t ≤ last_time }
        ensures value { result ≡ due_of self.now t0 t }
        ensures bounded { result ≤ LAST_AT }
    {
        (u128::from(t - t0) * u128::from(self.num) / 1_000_000) as u64
    }
}

// The millionths of a whole number below 10000, with or without a part after a point.
fn read_millionths(text: &[u8]) -> Option<u64>
    ensures { MatchOption result ((n : ℕ) → ¬ SpellsMillionths text.now n) (SpellsMillionths text.now) }
{
    let (whole, part) = at_point(text);
    let units = read_number(whole, MOST_UNITS)?;
    match part {
        Some(digits) => {
            let rest = read_part(digits)?;
            Some(1_000_000 * units + rest)
        }
        None => Some(1_000_000 * units),
    }
}

// What stands before the first point, and what after it, or the whole text where there is none.
fn at_point(text: &[u8]) -> (&[u8], Option<&[u8]>)
    ensures whole { All (λ b. b ≢ 46) result.0.now }
    ensures part { MatchOption result.1 (text.now ≡ result.0.now) (λ part. text.now ≡ result.0.now ++ 46 ∷ part.now) }
{
    match text.iter().position(|b| *b == b'.') {
        Some(point) => (&text[..point], Some(&text[point + 1..])),
        None => (text, None),
    }
}

// The millionths of the digits after a point.
fn read_part(text: &[u8]) -> Option<u64>
    ensures { MatchOption result ((n : ℕ) → ¬ SpellsPart text.now n) (SpellsPart text.now) }
{
    if text.is_empty() || text.len() > 6 {
        return None;
    }
    let mut value: u64 = 0;
    for digit in text {
        if !digit.is_ascii_digit() {
            return None;
        }
        value = 10 * value + u64::from(*digit - b'0');
    }
    Some(value * 10_u64.pow(6 - text.len() as u32))
}
