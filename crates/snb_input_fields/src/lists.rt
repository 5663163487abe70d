//! Lists in fields, read element by element.

ghost use Rattle.std.specs.Prelude.{◌≡◌, ◌≢◌, ◌||◌, ◌++◌, ◌∷◌, ◌↔◌, ℕ, List, Some, map, nat_eq, not, All, IsUtf8, IsTrue, IfOk, MatchOption, OnOk};
ghost use Rattle.std.specs.BTreeMap.{IsFromIterResult, get};
ghost use Rattle.std.specs.List.{list_any};
ghost use Rattle.std.specs.Ordering.{nat_cmp};
ghost use Rattle.std.specs.Str.{bytes_eq};
ghost use Rattle.snb_base.specs.Spellings.{HasOneYear, IdList, PairList, SpellsPair, WordList, elements, pair_eq};

use snb_base::{Numbers, Pairs, Text, Texts, one_spelling, read_number};
use snb_schema::{MAX_ID, MAX_YEAR};
use std::alloc::{AllocError, Global};
use std::collections::{BTreeMap, BTreeSet};
use std::str;

/// The text of the bytes.
pub fn text_of(alloc: Global, field: &[u8]) -> Result<Text, AllocError>
    requires { IsUtf8 field.now }
    ensures { IfOk result (λ text. text ≡ field.now) }
{
    Text::from_str(alloc, unsafe { str::from_utf8_unchecked(field) })
}

// What stands between the semicolons of a field.
fn parts_of<'a>(alloc: Global, field: &'a [u8]) -> Result<Vec<&'a [u8]>, AllocError>
    ensures { IfOk result (λ parts. map (λ x. x.now) parts.items ≡ elements field.entry.now) }
{
    if field.is_empty() {
        return Ok(Vec::new(alloc));
    }
    field.split(|b| *b == b';').collect(alloc)
}

// Notes a text, and tells whether it is new.
fn note_text<'a>(seen: &mut BTreeSet<&'a [u8]>, word: &'a [u8]) -> Result<bool, AllocError>
    ensures new { IfOk result (λ new. new ≡ not (list_any (bytes_eq word.now) (map (λ x. x.now) seen.old.keys))) }
    ensures seen { OnOk result
        ((q : List ℕ) → list_any (bytes_eq q) (map (λ x. x.now) seen.new.keys)
        ≡ (bytes_eq q word.now || list_any (bytes_eq q) (map (λ x. x.now) seen.old.keys))) }
{
    Ok(seen.insert(word)?)
}

// Notes an id, and tells whether it is new.
fn note_id(seen: &mut BTreeSet<u64>, id: u64) -> Result<bool, AllocError>
    ensures new { IfOk result (λ new. new ≡ not (list_any (nat_eq id) seen.old.keys)) }
    ensures seen { OnOk result
        ((q : ℕ) → list_any (nat_eq q) seen.new.keys ≡ (nat_eq q id || list_any (nat_eq q) seen.old.keys)) }
{
    Ok(seen.insert(id)?)
}

// Notes a pair, and tells whether it is new.
fn note_pair(seen: &mut BTreeSet<(u64, u32)>, pair: (u64, u32)) -> Result<bool, AllocError>
    ensures new { IfOk result (λ new. new ≡ not (list_any (pair_eq pair) seen.old.keys)) }
    ensures seen { OnOk result
        ((q : ℕ × ℕ) → list_any (pair_eq q) seen.new.keys ≡ (pair_eq q pair || list_any (pair_eq q) seen.old.keys)) }
{
    Ok(seen.insert(pair)?)
}

// Of each id one of its years.
fn years_of(alloc: Global, pairs: &[(u64, u32)]) -> Result<BTreeMap<u64, u32>, AllocError>
    ensures { IfOk result (IsFromIterResult nat_cmp pairs.now) }
{
    pairs.iter().copied().collect(alloc)
}

// Whether this is the year of an id.
fn has_year(years: &BTreeMap<u64, u32>, id: u64, year: u32) -> bool
    ensures { IsTrue result ↔ (get nat_cmp years.now id ≡ Some year) }
{
    match years.get(&id) {
        Some(other) => *other == year,
        None => false,
    }
}

// Whether each pair has the year that its id has.
fn agree(pairs: &[(u64, u32)], years: &BTreeMap<u64, u32>) -> bool
    ensures { IsTrue result ↔ All (λ p. get nat_cmp years.now p.0 ≡ Some p.1) pairs.now }
{
    for (id, year) in pairs {
        if !has_year(years, *id, *year) {
            return false;
        }
    }
    true
}

// Whether no id has two years.
fn has_one_year(alloc: Global, pairs: &[(u64, u32)]) -> Result<bool, AllocError>
    ensures { IfOk result (λ one. IsTrue one ↔ HasOneYear pairs.now) }
{
    let years = years_of(alloc, pairs)?;
    Ok(agree(pairs, &years))
}

// What stands before the first comma of a text, and what stands behind it.
fn cut_at_comma<'a>(text: &'a [u8]) -> Option<(&'a [u8], &'a [u8])>
    ensures { MatchOption result (All (λ b. b ≢ 44) text.entry.now)
        (λ parts. All (λ b. b ≢ 44) parts.0.now × (text.entry.now ≡ parts.0.now ++ 44 ∷ parts.1.now)) }
{
    let end = text.iter().position(|b| *b == b',')?;
    Some((&text[..end], &text[end + 1..]))
}

// The id and the year that a text spells.
fn read_pair(text: &[u8]) -> Option<(u64, u32)>
    ensures { MatchOption result ((p : ℕ × ℕ) → ¬ SpellsPair text.now p) (SpellsPair text.now) }
{
    let Some((before, behind)) = cut_at_comma(text) else {
        return None;
    };
    let Some(id) = read_number(before, MAX_ID) else {
        return None;
    };
    let Some(year) = read_number(behind, u64::from(MAX_YEAR)) else {
        return None;
    };
    Some((id, year as u32))
}

/// The list of texts that a field spells. The one error is want of memory.
pub fn read_texts(alloc: Global, field: &[u8]) -> Result<Option<Texts>, AllocError>
    requires { IsUtf8 field.now }
    ensures { IfOk result
        (λ found. MatchOption found ((texts : List (List ℕ)) → ¬ WordList field.now texts) (WordList field.now)) }
{
    let parts = parts_of(alloc, field)?;
    let mut seen = BTreeSet::new(alloc);
    let mut texts = Texts::new(alloc);
    for part in &parts {
        if part.is_empty() {
            return Ok(None);
        }
        let new = note_text(&mut seen, part)?;
        if new {
            texts.push(text_of(alloc, part)?)?;
        }
    }
    Ok(Some(texts))
}

/// The list of ids that a field spells. The one error is want of memory.
pub fn read_ids(alloc: Global, field: &[u8]) -> Result<Option<Numbers>, AllocError>
    ensures { IfOk result (λ found. MatchOption found ((ids : List ℕ) → ¬ IdList field.now ids) (IdList field.now)) }
{
    let parts = parts_of(alloc, field)?;
    let mut seen = BTreeSet::new(alloc);
    let mut ids = Numbers::new(alloc);
    for part in &parts {
        let Some(id) = read_number(part, MAX_ID) else {
            return Ok(None);
        };
        let new = note_id(&mut seen, id)?;
        if new {
            ids.push(id)?;
        }
    }
    Ok(Some(ids))
}

/// The list of ids with years that a field spells. The one error is want of memory.
pub fn read_pairs(alloc: Global, field: &[u8]) -> Result<Option<Pairs>, AllocError>
    ensures { IfOk result
        (λ found. MatchOption found ((pairs : List (ℕ × ℕ)) → ¬ PairList field.now pairs) (PairList field.now)) }
{
    one_spelling();
    let parts = parts_of(alloc, field)?;
    let mut seen = BTreeSet::new(alloc);
    let mut pairs = Pairs::new(alloc);
    for part in &parts {
        let Some(pair) = read_pair(part) else {
            return Ok(None);
        };
        let new = note_pair(&mut seen, pair)?;
        if new {
            pairs.push(pair.0, pair.1)?;
        }
    }
    let one = has_one_year(alloc, pairs.as_slice())?;
    if !one {
        return Ok(None);
    }
    Ok(Some(pairs))
}
