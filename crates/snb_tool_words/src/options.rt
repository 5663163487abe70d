//! The options of a command line.

ghost use Rattle.std.specs.Prelude.{◌≡◌, ◌≢◌, ℕ, ◌≤◌, ◌↔◌, Contains, IsTrue, MatchOption};
ghost use Rattle.std.specs.Option.{option_map};
ghost use Rattle.snb_base.specs.Spellings.{Num};
ghost use Rattle.snb_ratio.specs.Chances.{ChanceFall, SpellsChance};
ghost use Rattle.snb_ratio.specs.Ratios.{SpellsRatio};
ghost use Rattle.snb_schema.specs.Frequencies.{FrequencyTable};
ghost use Rattle.snb_tool_words.specs.declared.options.OptionName.{OptionName as AnyName};
ghost use Rattle.snb_tool_words.specs.declared.options.Via.{Via as AnyVia};
ghost use Rattle.snb_tool_words.specs.Options.{Adds, AreSuited, OptionWords, IsGiven, IsSuited, IsValueOf, Say, SaysFrequencies, SaysVia, SaysWorkers, no_options, option_word, put};
ghost use Rattle.snb_tool_words.specs.Taken.{SaysSize, given_of};
ghost use Rattle.snb_tool_words.specs.Words.{texts_of};

use crate::number_words::are_words;
use snb_base::read_number;
use snb_ratio::{Chance, Ratio};
use snb_schema::{Frequencies, MAX_TRIAL, MAX_WORKERS};

/// The options that there are.
#[derive(Clone, Copy, PartialEq, Eq)]
pub enum OptionName {
    /// `--workers N`: how many workers there are.
    Workers,
    /// `--ratio R`: by how much due times are stretched.
    Ratio,
    /// `--freq L`: how often each complex query is asked.
    Frequencies,
    /// `--via table`: that the table of handlers answers reads.
    Via,
    /// `--chance S:D`: the chance that a walk takes a step, and by how much it falls.
    Chance,
    /// `--words L`: the random words of a walk.
    Words,
}

/// By what the reads of cases are answered.
#[derive(Clone, Copy)]
pub enum Via {
    /// By the graph's own reads.
    Graph,
    /// By the table of handlers.
    Table,
}

/// The options of a command line: for each the word after its name, where it is given.
#[derive(Clone, Copy)]
pub struct Options<'a> {
    /// How many workers there are.
    pub workers: Option<&'a str>,
    /// By how much the due times are stretched.
    pub ratio: Option<&'a str>,
    /// How often each complex query is asked.
    pub frequencies: Option<&'a str>,
    /// By what reads are answered.
    pub via: Option<&'a str>,
    /// The chance that a walk takes a step.
    pub chance: Option<&'a str>,
    /// The random words of a walk.
    pub words: Option<&'a str>,
}

// All options.
const ALL: [OptionName; 6] = [
    OptionName::Workers,
    OptionName::Ratio,
    OptionName::Frequencies,
    OptionName::Via,
    OptionName::Chance,
    OptionName::Words,
];

// The option whose name on a command line is the word, or None.
fn option_of(word: &str) -> Option<OptionName>
    ensures { MatchOption result ((option : AnyName) → word.now ≢ option_word option)
        (λ option. word.now ≡ option_word option) }
{
    match word {
        "--workers" => Some(OptionName::Workers),
        "--ratio" => Some(OptionName::Ratio),
        "--freq" => Some(OptionName::Frequencies),
        "--via" => Some(OptionName::Via),
        "--chance" => Some(OptionName::Chance),
        "--words" => Some(OptionName::Words),
        _ => None,
    }
}

impl<'a> Options<'a> {
    // No option is given.
    fn none() -> Options<'a>
        ensures { given_of result ≡ no_options }
    {
        Options {
            workers: None,
            ratio: None,
            frequencies: None,
            via: None,
            chance: None,
            words: None,
        }
    }

    // The word of the option, where it is given.
    fn get(&self, option: OptionName) -> Option<&'a str>
        ensures { option_map (λ word. word.now) result ≡ given_of self.now option }
    {
        match option {
            OptionName::Workers => self.workers,
            OptionName::Ratio => self.ratio,
            OptionName::Frequencies => self.frequencies,
            OptionName::Via => self.via,
            OptionName::Chance => self.chance,
            OptionName::Words => self.words,
        }
    }

    // The same with this word of the option.
    fn with(self, option: OptionName, word: &'a str) -> Options<'a>
        ensures { given_of result ≡ put (given_of self.entry) option word.now }
    {
        let word = Some(word);
        match option {
            OptionName::Workers => Options {
                workers: word,
                ..self
            },
            OptionName::Ratio => Options {
                ratio: word,
                ..self
            },
            OptionName::Frequencies => Options {
                frequencies: word,
                ..self
            },
            OptionName::Via => Options { via: word, ..self },
            OptionName::Chance => Options {
                chance: word,
                ..self
            },
            OptionName::Words => Options {
                words: word,
                ..self
            },
        }
    }

    // Whether the option is admitted where it is given, and given where it is needed.
    fn is_suited(&self, option: OptionName, admitted: &[OptionName], needed: &[OptionName]) -> bool
        ensures { IsTrue result ↔ IsSuited admitted.now needed.now (given_of self.now) option }
    {
        if self.get(option).is_some() {
            is_among(admitted, option)
        } else {
            !is_among(needed, option)
        }
    }

    /// Whether those that are given are admitted, and those that are needed are given.
    pub fn are_suited(&self, admitted: &[OptionName], needed: &[OptionName]) -> bool
        ensures { IsTrue result ↔ AreSuited admitted.now needed.now (given_of self.now) }
    {
        for option in &ALL {
            if !self.is_suited(*option, admitted, needed) {
                return false;
            }
        }
        true
    }
}

// Whether the option is one of these.
fn is_among(options: &[OptionName], option: OptionName) -> bool
    ensures { IsTrue result ↔ Contains options.now option }
{
    for one in options {
        if *one == option {
            return true;
        }
    }
    false
}

// The number that the word says, from 1 to the greatest, or None.
fn count_of(word: &str, most: u32) -> Option<u32>
    ensures { MatchOption result ((n : ℕ) → ¬ (Num word.now n most × (1 ≤ n))) (λ n. Num word.now n most × (1 ≤ n)) }
{
    let number = read_number(word.as_bytes(), u64::from(most))?;
    if number == 0 {
        return None;
    }
    Some(number as u32)
}

/// The number of workers that the word says, or None.
pub fn workers_of(word: &str) -> Option<u32>
    ensures { MatchOption result ((n : ℕ) → ¬ SaysWorkers word.now n) (SaysWorkers word.now) }
{
    count_of(word, MAX_WORKERS)
}

/// The size of a trial that the word says, or None.
pub fn size_of(word: &str) -> Option<u32>
    ensures { MatchOption result ((n : ℕ) → ¬ SaysSize word.now n) (SaysSize word.now) }
{
    count_of(word, MAX_TRIAL)
}

/// The ratio that the word says, or None.
pub fn ratio_of(word: &str) -> Option<Ratio>
    ensures { MatchOption result ((n : ℕ) → ¬ SpellsRatio word.now n) (SpellsRatio word.now) }
{
    Ratio::read(word.as_bytes())
}

/// The frequencies that the word says, or None.
pub fn frequencies_of(word: &str) -> Option<Frequencies>
    ensures { MatchOption result ((table : FrequencyTable) → ¬ SaysFrequencies word.now table)
        (SaysFrequencies word.now) }
{
    Frequencies::read(word.as_bytes())
}

/// By what the word says that reads are answered, or None.
pub fn via_of(word: &str) -> Option<Via>
    ensures { MatchOption result ((via : AnyVia) → ¬ SaysVia word.now via) (SaysVia word.now) }
{
    match word {
        "table" => Some(Via::Table),
        _ => None,
    }
}

/// The chance that the word says, or None.
pub fn chance_of(word: &str) -> Option<Chance>
    ensures { MatchOption result ((chance : ChanceFall) → ¬ SpellsChance word.now chance) (SpellsChance word.now) }
{
    Chance::read(word.as_bytes())
}

// Whether the word is a value of the option.
fn is_value(option: OptionName, word: &str) -> bool
    ensures { IsTrue result ↔ IsValueOf option word.now }
{
    match option {
        OptionName::Workers => workers_of(word).is_some(),
        OptionName::Ratio => ratio_of(word).is_some(),
        OptionName::Frequencies => frequencies_of(word).is_some(),
        OptionName::Via => via_of(word).is_some(),
        OptionName::Chance => chance_of(word).is_some(),
        OptionName::Words => are_words(word),
    }
}

// The options with one more, or None where the two words aren't one that wasn't given yet.
fn with_option<'a>(old: Options<'a>, name: &str, value: &'a str) -> Option<Options<'a>>
    ensures { MatchOption result ((more : OptionWords) → ¬ Adds (given_of old.entry) name.now value.now more)
        (λ new. Adds (given_of old.entry) name.now value.now (given_of new)) }
{
    let option = option_of(name)?;
    if old.get(option).is_some() || !is_value(option, value) {
        return None;
    }
    Some(old.with(option, value))
}

// The options with those that the words say, or None where they say none.
fn with_options<'a>(old: Options<'a>, words: &[&'a str]) -> Option<Options<'a>>
    ensures { MatchOption result ((more : OptionWords) → ¬ Say (given_of old.entry) (texts_of words.now) more)
        (λ new. Say (given_of old.entry) (texts_of words.now) (given_of new)) }
{
    match words {
        [] => Some(old),
        [_] => None,
        [name, value, rest @ ..] => with_options(with_option(old, name, value)?, rest),
    }
}

/// The options that the words say, or None where they say none.
pub fn options_of<'a>(words: &[&'a str]) -> Option<Options<'a>>
    ensures { MatchOption result ((given : OptionWords) → ¬ Say no_options (texts_of words.now) given)
        (λ options. Say no_options (texts_of words.now) (given_of options)) }
{
    with_options(Options::none(), words)
}
