//! The words of an accepted line, taken apart by `clap`.

ghost use Rattle.std.specs.Prelude.{◌≡◌, ℕ, List, [], Some, IfOk, IsSome, codes, drop, false, true};
ghost use Rattle.clap.specs.Takes.{takes};
ghost use Rattle.clap.specs.Words.{app_of, first_of, first_value, found_of, matches_of, rule_of};
ghost use Rattle.snb_ratio.specs.Chances.{ChanceFall, SpellsChance};
ghost use Rattle.snb_ratio.specs.Ratios.{SpellsRatio, real_time};
ghost use Rattle.snb_schema.specs.declared.query.Query.{Query as AnyQuery};
ghost use Rattle.snb_schema.specs.declared.query.ReadKind.{ReadKind as AnyKind};
ghost use Rattle.snb_schema.specs.Frequencies.{FrequencyTable};
ghost use Rattle.snb_tool_words.specs.declared.options.Via.{Via as AnyVia};
ghost use Rattle.snb_tool_words.specs.Options.{MustSay, OptionSays, SaysFrequencies, SaysVia, SaysWorkers, SpellsWords, no_frequencies};
ghost use Rattle.snb_tool_words.specs.Taken.{IsReadFound, NamesKind, SaysSize, app_with, line_app, next_of, option_rule};
ghost use Rattle.snb_tool_words.specs.Words.{texts_of};

use crate::number_words::words_of;
use crate::options::{Via, chance_of, frequencies_of, ratio_of, size_of, via_of, workers_of};
use clap::error::ErrorKind;
use clap::{Arg, ArgMatches, Command};
use snb_base::{Numbers, Text, read_number};
use snb_dates::read_date;
use snb_input_fields::{Fields, one_value, read_query};
use snb_ratio::{Chance, Ratio};
use snb_schema::{Frequencies, LineFault, Query, ReadKind};
use std::alloc::{AllocError, Global};
use std::marker::Model;

// The command that has these places.
fn places_command<'a>(alloc: Global, places: &[&'a str]) -> Result<Command<'a>, AllocError>
    ensures { IfOk result (λ command. app_of command ≡ app_with (texts_of places.now) []) }
{
    let mut command = Command::new(alloc, "snb").disable_help_flag(true);
    for place in places {
        command = command.arg(Arg::new(alloc, place))?;
    }
    Ok(command)
}

// An option of this name, which has one value.
fn option<'a>(alloc: Global, name: &'a str) -> Arg<'a>
    ensures rule { rule_of result ≡ option_rule name.entry.now }
    ensures local { result.global ≡ false }
{
    Arg::new(alloc, name).long(name)
}

// The command that has these places and these options.
fn line_command<'a>(
    alloc: Global,
    places: &[&'a str],
    options: &[&'a str],
) -> Result<Command<'a>, AllocError>
    ensures { IfOk result (λ command. app_of command ≡ app_with (texts_of places.now) (texts_of options.now)) }
{
    let mut command = places_command(alloc, places)?;
    for name in options {
        command = command.arg(option(alloc, name))?;
    }
    Ok(command)
}

/// What `clap` finds in the words of an accepted line, by the names of places and options. The error is
/// want of memory. The condition: `clap` takes these words.
pub fn matches_in<'a>(alloc: Global, words: &'a [&'a str]) -> Result<ArgMatches<'a>, AllocError>
    requires { takes line_app (texts_of words.now) ≡ true }
    ensures { IfOk result (λ matches. (name : List ℕ) → first_value (found_of matches) name
        ≡ first_of name (matches_of line_app (texts_of words.entry.now))) }
{
    let places = ["first", "second", "third", "fourth", "fifth"];
    let options = ["workers", "ratio", "freq", "via", "chance", "words"];
    let command = line_command(alloc, &places, &options)?;
    match command.try_get_matches_from(words) {
        Ok(matches) => Ok(matches),
        Err(error) => match error.kind() {
            ErrorKind::OutOfMemory => Err(AllocError),
            _ => unreachable!(),
        },
    }
}

/// The text that stands at a place. The error is want of memory. The condition: one stands there.
pub fn text_at(alloc: Global, matches: &ArgMatches<'_>, place: &str) -> Result<Text, AllocError>
    requires { IsSome (first_value (found_of matches.now) place.now) }
    ensures { IfOk result (λ text. first_value (found_of matches.now) place.now ≡ Some text) }
{
    match matches.get_str(place) {
        Some(word) => Text::from_str(alloc, word),
        None => unreachable!(),
    }
}

/// The size of a trial that the word of this name says. The condition: it says one.
pub fn size_in(matches: &ArgMatches<'_>, name: &str) -> u32
    requires { (size : ℕ) × MustSay SaysSize (first_value (found_of matches.now) name.now) size }
    ensures { MustSay SaysSize (first_value (found_of matches.now) name.now) result }
{
    match matches.get_str(name).and_then(size_of) {
        Some(size) => size,
        None => unreachable!(),
    }
}

/// The number of workers that the word of this name says. The condition: it says one.
pub fn workers_in(matches: &ArgMatches<'_>, name: &str) -> u32
    requires { (workers : ℕ) × MustSay SaysWorkers (first_value (found_of matches.now) name.now) workers }
    ensures { MustSay SaysWorkers (first_value (found_of matches.now) name.now) result }
{
    match matches.get_str(name).and_then(workers_of) {
        Some(workers) => workers,
        None => unreachable!(),
    }
}

/// The ratio that its option says, or 1. The condition: it says one where it is given.
pub fn ratio_in(matches: &ArgMatches<'_>) -> Ratio
    requires { (ratio : ℕ) × OptionSays SpellsRatio real_time (first_value (found_of matches.now) (codes "ratio"))
        ratio }
    ensures { OptionSays SpellsRatio real_time (first_value (found_of matches.now) (codes "ratio")) result }
{
    let Some(word) = matches.get_str("ratio") else {
        return Ratio::one();
    };
    match ratio_of(word) {
        Some(ratio) => ratio,
        None => unreachable!(),
    }
}

/// The frequencies that their option says, or none. The condition: it says some where it is given.
pub fn frequencies_in(matches: &ArgMatches<'_>) -> Frequencies
    requires { (table : FrequencyTable) × OptionSays SaysFrequencies no_frequencies
        (first_value (found_of matches.now) (codes "freq")) table }
    ensures { OptionSays SaysFrequencies no_frequencies (first_value (found_of matches.now) (codes "freq")) result }
{
    let Some(word) = matches.get_str("freq") else {
        return Frequencies::none();
    };
    match frequencies_of(word) {
        Some(frequencies) => frequencies,
        None => unreachable!(),
    }
}

/// By what its option says that reads are answered, or the graph. The condition: it says it where it is
/// given.
pub fn via_in(matches: &ArgMatches<'_>) -> Via
    requires { (via : AnyVia) × OptionSays SaysVia Via.Graph (first_value (found_of matches.now) (codes "via")) via }
    ensures { OptionSays SaysVia Via.Graph (first_value (found_of matches.now) (codes "via")) result }
{
    let Some(word) = matches.get_str("via") else {
        return Via::Graph;
    };
    match via_of(word) {
        Some(via) => via,
        None => unreachable!(),
    }
}

/// The chance that its option says. The condition: it says one.
pub fn chance_in(matches: &ArgMatches<'_>) -> Chance
    requires { (chance : ChanceFall) × MustSay SpellsChance (first_value (found_of matches.now) (codes "chance"))
        chance }
    ensures { MustSay SpellsChance (first_value (found_of matches.now) (codes "chance")) result }
{
    match matches.get_str("chance").and_then(chance_of) {
        Some(chance) => chance,
        None => unreachable!(),
    }
}

/// The numbers that the option of words spells. The error is want of memory. The condition: it spells some.
pub fn words_in(alloc: Global, matches: &ArgMatches<'_>) -> Result<Numbers, AllocError>
    requires { (words : List ℕ) × MustSay SpellsWords (first_value (found_of matches.now) (codes "words")) words }
    ensures { IfOk result (MustSay SpellsWords (first_value (found_of matches.now) (codes "words"))) }
{
    match matches.get_str("words") {
        Some(word) => words_of(alloc, word),
        None => unreachable!(),
    }
}

// The kind of a read that was found. The condition: one was.
fn kind_in(matches: &ArgMatches<'_>) -> ReadKind
    requires { (kind : AnyKind) × MustSay NamesKind (first_value (found_of matches.now) (codes "second")) kind }
    ensures { (kind : AnyKind) → MustSay NamesKind (first_value (found_of matches.now) (codes "second")) kind
        → result ≡ kind }
{
    let Some(word) = matches.get_str("second") else {
        unreachable!()
    };
    match ReadKind::of_word(word) {
        Some(kind) => kind,
        None => unreachable!(),
    }
}

// Reads the words that were found at these places, one after another, each by a column in which it
// spells a value.
#[derive(Drop)]
struct WordFields<'m, 'a> {
    alloc: Global,
    matches: &'m ArgMatches<'a>,
    places: &'static [&'static str],
}

impl<'m, 'a> Model for WordFields<'m, 'a> {
    ghost use Rattle.std.specs.Prelude.{ℕ, List, Option, map};
    ghost use Rattle.clap.specs.Words.{first_value, found_of};
    ghost use Rattle.snb_tool_words.specs.Words.{texts_of};

    ghost Value = { List (Option (List ℕ)) };

    ghost view = { λ r. map (first_value (found_of r.matches.now)) (texts_of r.places.now) };
}

impl<'a> WordFields<'_, 'a> {
    // The next word. The condition: there is one.
    fn next_word(&mut self) -> &'a str
        requires { IsSome (next_of self.old) }
        ensures word { next_of self.old ≡ Some result.now }
        ensures past { self.new ≡ drop 1 self.old }
    {
        let [place, places @ ..] = self.places else {
            unreachable!()
        };
        self.places = places;
        match self.matches.get_str(place) {
            Some(word) => word,
            None => unreachable!(),
        }
    }
}

impl Fields for WordFields<'_, '_> {
    ghost use Rattle.snb_tool_words.specs.Taken.{words_meaning};

    ghost meaning = { words_meaning };

    fn number(&mut self, most: u64) -> Result<u64, LineFault> {
        match read_number(self.next_word().as_bytes(), most) {
            Some(n) => Ok(n),
            None => unreachable!(),
        }
    }

    fn small(&mut self, most: u32) -> Result<u32, LineFault> {
        match read_number(self.next_word().as_bytes(), u64::from(most)) {
            Some(n) => Ok(n as u32),
            None => unreachable!(),
        }
    }

    fn date(&mut self) -> Result<u64, LineFault> {
        match read_date(self.next_word().as_bytes()) {
            Some(n) => Ok(n),
            None => unreachable!(),
        }
    }

    fn text(&mut self) -> Result<Text, LineFault> {
        Ok(Text::from_str(self.alloc, self.next_word())?)
    }
}

/// The read whose kind and parameters were found. The error is want of memory. The condition: those of a
/// read were found.
pub fn query_in(alloc: Global, matches: &ArgMatches<'_>) -> Result<Query, AllocError>
    requires { (query : AnyQuery) × IsReadFound (first_value (found_of matches.now)) query }
    ensures { IfOk result
        (λ made. (query : AnyQuery) → IsReadFound (first_value (found_of matches.now)) query → made ≡ query) }
{
    one_value();
    let mut words = WordFields {
        alloc,
        matches,
        places: &["third", "fourth", "fifth"],
    };
    match read_query(kind_in(matches), &mut words) {
        Ok(query) => Ok(query),
        Err(LineFault::Memory) => Err(AllocError),
        Err(LineFault::Bad { .. }) => unreachable!(),
    }
}
