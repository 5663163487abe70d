//! How often each complex query is asked.

ghost use Rattle.std.specs.Prelude.{◌≡◌, ℕ, ◌<◌, ◌≤◌, ◌==◌, List, if◌then◌else◌, MatchOption};
ghost use Rattle.snb_schema.specs.Queries.{IsComplex};
ghost use Rattle.snb_schema.specs.Frequencies.{frequency_at, SpellsFrequency, SpellsFrequencies, HasFrequencies};
ghost use Rattle.snb_schema.specs.FrequencyPieces.{IsCutAtFirst, SpellsAfter};
ghost use Rattle.snb_schema.specs.Lines.{HasNo};

use crate::limits::MAX_FREQUENCY;
use crate::query::{COMPLEX_COUNT, is_complex, place_of};
use snb_base::read_number;
use std::marker::Model;

/// How often each of the complex queries 1, 2, 7, 8, 9, 11 and 13 is asked, where it is: the k-th
/// instance of a query of frequency f is due with every f-th update.
///
/// A contract sees the seven frequencies, of which 0 stands for none; none is above `MAX_FREQUENCY`.
#[derive(Clone, Copy)]
pub struct Frequencies {
    by_place: [u32; COMPLEX_COUNT],
}

impl Model for Frequencies {
    ghost use Rattle.std.specs.Prelude.{◌≡◌, length};
    ghost use Rattle.snb_schema.specs.Frequencies.{AreBounded, FrequencyTable};
    ghost use Rattle.snb_schema.specs.QueryPlaces.{as_list, listed_back, values_of};
    ghost use Rattle.snb_schema.specs.declared.query.TheConstants.{COMPLEX_COUNT};

    ghost Value = { FrequencyTable };

    ghost view = { λ f. values_of COMPLEX_COUNT f.by_place 0 };

    ghost invariant = { λ f. (length f.by_place ≡ COMPLEX_COUNT) × AreBounded (values_of COMPLEX_COUNT f.by_place 0) };

    ghost inverse = { λ t. record { by_place = as_list COMPLEX_COUNT t } };

    ghost inverse_ok = { λ f h i. record { by_place = listed_back COMPLEX_COUNT f.by_place 0 h.0 i } };
}

impl Frequencies {
    /// No query has one.
    pub fn none() -> Frequencies
        ensures { (query : ℕ) → frequency_at result query ≡ 0 }
    {
        Frequencies {
            by_place: [0; COMPLEX_COUNT],
        }
    }

    /// The frequency of the query of this number: 0 where it has none, and at any number that isn't
    /// one of the seven.
    pub fn of(&self, query: u32) -> u32
        ensures value { result ≡ frequency_at self.now query }
        ensures bounded { result ≤ MAX_FREQUENCY }
    {
        let place = place_of(query);
        if place < COMPLEX_COUNT {
            self.by_place[place]
        } else {
            0
        }
    }

    /// The frequencies that the text says: one or more pairs `query:frequency`, separated by commas.
    /// The queries are of the seven and rise strictly, and the frequencies go from 1 to
    /// `MAX_FREQUENCY`. Each number has 1 to 19 decimal digits without a leading zero. None exactly
    /// where the text isn't such. Takes no memory.
    pub fn read(text: &[u8]) -> Option<Frequencies>
        ensures { MatchOption result ((pairs : List (ℕ × ℕ)) → ¬ SpellsFrequencies text.now pairs)
            (λ table. (pairs : List (ℕ × ℕ)) × SpellsFrequencies text.now pairs × HasFrequencies table pairs) }
    {
        read_after(text, 0)
    }

    // With this frequency of this query.
    fn with(self, query: u32, frequency: u32) -> Frequencies
        requires complex { IsComplex query }
        requires bounded { frequency ≤ MAX_FREQUENCY }
        ensures { (other : ℕ) → frequency_at result other
            ≡ (if other == query then frequency else frequency_at self other) }
    {
        let mut table = self;
        table.by_place[place_of(query)] = frequency;
        table
    }
}

// The parts of the text before and after the first byte `at`.
fn cut<'a>(text: &'a [u8], at: u8) -> Option<(&'a [u8], &'a [u8])>
    ensures { MatchOption result (HasNo at text.entry.now)
        (λ parts. IsCutAtFirst at text.entry.now parts.0.now parts.1.now) }
{
    let place = text.iter().position(|b| *b == at)?;
    Some((&text[..place], &text[place + 1..]))
}

// The query and the frequency that a piece says, where the query is above `last`.
fn read_pair(piece: &[u8], last: u32) -> Option<(u32, u32)>
    ensures { MatchOption result ((pair : ℕ × ℕ) → last < pair.0 → ¬ SpellsFrequency piece.now pair)
        (λ pair. SpellsFrequency piece.now pair × (last < pair.0) × (pair.1 ≤ MAX_FREQUENCY)) }
{
    let (before, after) = cut(piece, b':')?;
    let most = u64::from(MAX_FREQUENCY);
    let query = read_number(before, most)? as u32;
    let frequency = read_number(after, most)? as u32;
    if query <= last || !is_complex(query) || frequency == 0 {
        return None;
    }
    Some((query, frequency))
}

// The frequencies that the text says, where its queries are above `last`. Each call takes a greater
// query, so at most seven calls stand in one another.
fn read_after(text: &[u8], last: u32) -> Option<Frequencies>
    ensures { MatchOption result ((pairs : List (ℕ × ℕ)) → ¬ SpellsAfter last text.now pairs)
        (λ table. (pairs : List (ℕ × ℕ)) × SpellsAfter last text.now pairs × HasFrequencies table pairs) }
{
    match cut(text, b',') {
        None => {
            let (query, frequency) = read_pair(text, last)?;
            Some(Frequencies::none().with(query, frequency))
        }
        Some((piece, rest)) => {
            let (query, frequency) = read_pair(piece, last)?;
            let more = read_after(rest, query)?;
            Some(more.with(query, frequency))
        }
    }
}
