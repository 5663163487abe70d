//! Chances that fall from step to step.

ghost use Rattle.std.specs.Prelude.{◌≡◌, ◌≢◌, ◌≤◌, ◌∷◌, ◌++◌, MatchOption};
ghost use Rattle.std.specs.List.{All};
ghost use Rattle.snb_ratio.specs.Chances.{ChanceFall, SpellsChance};

use snb_base::read_number;
use std::marker::Model;

/// A chance of 1, in millionths.
pub const CERTAIN: u64 = 1000000;

/// The chance that a walk takes a step: that of the first, from 0 to 1, and by how much it falls with each
/// step, from a millionth to 1. A contract sees both, in millionths.
#[derive(Clone, Copy)]
pub struct Chance {
    start: u32,
    down: u32,
}

impl Model for Chance {
    ghost use Rattle.snb_ratio.specs.Chances.{ChanceFall, IsBounded};

    ghost Value = { ChanceFall };

    ghost view = { λ c. record { start = c.start; down = c.down } };

    ghost invariant = { λ c. IsBounded (record { start = c.start; down = c.down }) };

    ghost inverse = { λ f. record { start = f.start; down = f.down } };
}

impl Chance {
    /// The chance that the text spells: `S:D`, where S is the chance of the first step, a number up to
    /// 1000000, and D what it falls by with each step, from 1 to 1000000, both in millionths. None exactly
    /// where the text isn't such. Takes no memory.
    pub fn read(text: &[u8]) -> Option<Chance>
        ensures { MatchOption result ((chance : ChanceFall) → ¬ SpellsChance text.now chance) (SpellsChance text.now) }
    {
        let (first, fall) = at_colon(text)?;
        let start = read_number(first, CERTAIN)?;
        let down = read_number(fall, CERTAIN)?;
        if down == 0 {
            return None;
        }
        Some(Chance {
            start: start as u32,
            down: down as u32,
        })
    }

    /// The chance of the first step, in millionths.
    pub fn start(&self) -> u32
        ensures value { result ≡ self.now.start }
        ensures most { result ≤ CERTAIN }
    {
        self.start
    }

    /// By how much it falls with each step, in millionths.
    pub fn down(&self) -> u32
        ensures value { result ≡ self.now.down }
        ensures falls { 1 ≤ result }
        ensures deep { result ≤ CERTAIN }
    {
        self.down
    }
}

// What stands before the first colon, and what after it.
fn at_colon<'a>(text: &'a [u8]) -> Option<(&'a [u8], &'a [u8])>
    ensures { MatchOption result (All (λ b. b ≢ 58) text.entry.now)
        (λ parts. All (λ b. b ≢ 58) parts.0.now × (text.entry.now ≡ parts.0.now ++ 58 ∷ parts.1.now)) }
{
    let colon = text.iter().position(|b| *b == b':')?;
    Some((&text[..colon], &text[colon + 1..]))
}
