//! The name, the plain words and the options of a command line.

ghost use Rattle.std.specs.Prelude.{◌≡◌, ℕ, ◌<◌, ◌≤◌, ◌↔◌, List, length, slice_index_or, take, All, IsTrue, MatchOption};
ghost use Rattle.std.specs.Borrow.{Bor};
ghost use Rattle.snb_tool_words.specs.Options.{OptionWords};
ghost use Rattle.snb_tool_words.specs.Taken.{given_of};
ghost use Rattle.snb_tool_words.specs.Words.{AreLineWords, IsPlainWord, texts_of};

use crate::options::{OptionName, Options, options_of};

/// The parts of a command line.
#[derive(Clone, Copy)]
pub struct Line<'w, 'a> {
    /// Its first word.
    pub name: &'a str,
    /// The plain words after it.
    pub plain: &'w [&'a str],
    /// The options that follow them.
    pub given: Options<'a>,
}

impl Line<'_, '_> {
    ghost use Rattle.snb_tool_words.specs.Options.{AreSuited};
    ghost use Rattle.snb_tool_words.specs.Taken.{given_of};

    /// Whether it has so many plain words, and its options are suited.
    pub fn suits(&self, places: usize, admitted: &[OptionName], needed: &[OptionName]) -> bool
        ensures { IsTrue result
            ↔ ((length self.now.plain.now ≡ places) × AreSuited admitted.now needed.now (given_of self.now.given)) }
    {
        self.plain.len() == places && self.given.are_suited(admitted, needed)
    }
}

// Whether the word isn't empty and doesn't begin with `-`.
fn is_plain(word: &str) -> bool
    ensures { IsTrue result ↔ IsPlainWord word.now }
{
    match word.as_bytes() {
        [] => false,
        [first, ..] => *first != b'-',
    }
}

// How many plain words the words begin with.
fn plain_count(words: &[&str]) -> usize
    ensures within { result ≤ length words.now }
    ensures plain { All (λ word. IsPlainWord word.now) (take result words.now) }
    ensures apart { (d : Bor (List ℕ)) → result < length words.now
        → ¬ IsPlainWord (slice_index_or words.now result d).now }
{
    for i in 0..words.len() {
        if !is_plain(words[i]) {
            return i;
        }
    }
    words.len()
}

/// The parts of the words, or None where they are no line.
pub fn line_of<'w, 'a>(words: &'w [&'a str]) -> Option<Line<'w, 'a>>
    ensures { MatchOption result
        ((name : List ℕ) (plain : List (List ℕ)) (given : OptionWords)
        → ¬ AreLineWords (texts_of words.now) name plain given)
        (λ line. AreLineWords (texts_of words.now) line.name.now (texts_of line.plain.now) (given_of line.given)) }
{
    match words {
        [name, rest @ ..] => {
            let (plain, options) = rest.split_at(plain_count(rest));
            let given = options_of(options)?;
            Some(Line { name, plain, given })
        }
        [] => None,
    }
}
