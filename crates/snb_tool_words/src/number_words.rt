//! Lists of numbers as the word of an option has them.

ghost use Rattle.std.specs.Prelude.{◌≡◌, ◌≢◌, ℕ, ◌++◌, ◌∷◌, ◌↔◌, List, All, IfOk, IsTrue, MatchOption};
ghost use Rattle.snb_base.specs.Spellings.{SpellsId};
ghost use Rattle.snb_tool_words.specs.Options.{SpellsWords};

use snb_base::{Numbers, read_number};
use snb_schema::{MAX_ID, MAX_WORDS};
use std::alloc::{AllocError, Global};

// What stands before the first comma, and what after it.
fn at_comma<'a>(text: &'a [u8]) -> Option<(&'a [u8], &'a [u8])>
    ensures { MatchOption result (All (λ b. b ≢ 44) text.entry.now)
        (λ parts. All (λ b. b ≢ 44) parts.0.now × (text.entry.now ≡ parts.0.now ++ 44 ∷ parts.1.now)) }
{
    let comma = text.iter().position(|b| *b == b',')?;
    Some((&text[..comma], &text[comma + 1..]))
}

// Whether the text spells a number up to the greatest id.
fn is_id(text: &[u8]) -> bool
    ensures { IsTrue result ↔ ((id : ℕ) × SpellsId text.now id) }
{
    read_number(text, MAX_ID).is_some()
}

// The number that the text spells. The condition: it spells one up to the greatest id.
fn id_of(text: &[u8]) -> u64
    requires { (id : ℕ) × SpellsId text.now id }
    ensures { SpellsId text.now result }
{
    match read_number(text, MAX_ID) {
        Some(id) => id,
        None => unreachable!(),
    }
}

/// Whether the text is from 1 to `MAX_WORDS` numbers up to the greatest id, separated by commas. Takes no
/// memory.
pub fn are_words(text: &str) -> bool
    ensures { IsTrue result ↔ ((words : List ℕ) × SpellsWords text.now words) }
{
    let mut rest = text.as_bytes();
    for _i in 0..MAX_WORDS {
        let Some((word, more)) = at_comma(rest) else {
            return is_id(rest);
        };
        if !is_id(word) {
            return false;
        }
        rest = more;
    }
    false
}

/// The numbers that the text spells. The error is want of memory. The condition: it spells from 1 to
/// `MAX_WORDS`, separated by commas.
pub fn words_of(alloc: Global, text: &str) -> Result<Numbers, AllocError>
    requires { (words : List ℕ) × SpellsWords text.now words }
    ensures { IfOk result (SpellsWords text.now) }
{
    let mut words = Numbers::new(alloc);
    let mut rest = text.as_bytes();
    for _i in 0..MAX_WORDS {
        let Some((word, more)) = at_comma(rest) else {
            words.push(id_of(rest))?;
            return Ok(words);
        };
        words.push(id_of(word))?;
        rest = more;
    }
    unreachable!()
}
