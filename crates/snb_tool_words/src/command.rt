//! The commands of the program, read off the words of a line.

ghost use Rattle.std.specs.Prelude.{◌≡◌, ◌↔◌, IfOk, IfSome, IsTrue, MatchOption, OnErr, codes, false, true};
ghost use Rattle.clap.specs.Words.{first_value, found_of};
ghost use Rattle.snb_tool_words.specs.declared.command.Command.{Command as AnyCommand};
ghost use Rattle.snb_tool_words.specs.Commands.{AreOf, IsLineOf, IsOtherLine, form_of};
ghost use Rattle.snb_tool_words.specs.CommandFacts.{IsRunnable, needs_table, command_waits};
ghost use Rattle.snb_tool_words.specs.Options.{AreSuited};
ghost use Rattle.snb_tool_words.specs.Taken.{AreFoundOf, AreSome, AreValues, HaveRead, IsFoundBy, IsLineBy, given_of};
ghost use Rattle.snb_tool_words.specs.Words.{texts_of};

use crate::line::{Line, line_of};
use crate::options::{OptionName, Via, size_of, workers_of};
use crate::reads::is_read;
use crate::taken::{
    chance_in, frequencies_in, matches_in, query_in, ratio_in, size_in, text_at, via_in, words_in,
    workers_in,
};
use clap::ArgMatches;
use snb_base::{Numbers, Text};
use snb_ratio::{Chance, Ratio};
use snb_schema::{Frequencies, Query};
use std::alloc::{AllocError, Global};

/// What the words of a command line say.
pub enum Command {
    /// `check DIR`, with `--freq L` or without.
    Check {
        /// The folder.
        folder: Text,
        /// How often each complex query is asked.
        frequencies: Frequencies,
    },
    /// `run DIR --workers N`, with `--ratio R` and `--freq L` or without.
    Run {
        /// The folder.
        folder: Text,
        /// How many workers there are.
        workers: u32,
        /// By how much the due times are stretched.
        ratio: Ratio,
        /// How often each complex query is asked.
        frequencies: Frequencies,
    },
    /// `audit DIR LOG`, with `--ratio R` and `--freq L` or without.
    Audit {
        /// The folder.
        folder: Text,
        /// The file of the log.
        log: Text,
        /// By how much the due times are stretched.
        ratio: Ratio,
        /// How often each complex query is asked.
        frequencies: Frequencies,
    },
    /// `latency DIR LOG`, with `--ratio R` and `--freq L` or without.
    Latency {
        /// The folder.
        folder: Text,
        /// The file of the log.
        log: Text,
        /// By how much the due times are stretched.
        ratio: Ratio,
        /// How often each complex query is asked.
        frequencies: Frequencies,
    },
    /// `expect DIR`, with `--freq L` or without.
    Expect {
        /// The folder.
        folder: Text,
        /// How often each complex query is asked.
        frequencies: Frequencies,
    },
    /// `validate DIR CASES`, with `--via table` or without.
    Validate {
        /// The folder.
        folder: Text,
        /// The file of the cases.
        cases: Text,
        /// By what the reads of the cases are answered.
        via: Via,
    },
    /// `read DIR KIND`, with the parameters of the read.
    Read {
        /// The folder.
        folder: Text,
        /// The read, with its parameters.
        query: Query,
    },
    /// `walk DIR KIND`, with the parameters of the read, `--chance S:D` and `--words L`.
    Walk {
        /// The folder.
        folder: Text,
        /// The read that the walk begins with, with its parameters.
        query: Query,
        /// The chance that the walk takes a step, and by how much it falls.
        chance: Chance,
        /// The random words.
        words: Numbers,
    },
    /// `trial SIZE N`.
    Trial {
        /// The size of the workload, from 1 to `MAX_TRIAL`.
        size: u32,
        /// How many workers there are.
        workers: u32,
    },
}

impl Drop for Command {
    fn drop(self) {
        match self {
            Command::Check {
                folder: _,
                frequencies: _,
            } => {}
            Command::Run {
                folder: _,
                workers: _,
                ratio: _,
                frequencies: _,
            } => {}
            Command::Audit {
                folder: _,
                log: _,
                ratio: _,
                frequencies: _,
            } => {}
            Command::Latency {
                folder: _,
                log: _,
                ratio: _,
                frequencies: _,
            } => {}
            Command::Expect {
                folder: _,
                frequencies: _,
            } => {}
            Command::Validate {
                folder: _,
                cases: _,
                via: _,
            } => {}
            Command::Read {
                folder: _,
                query: _,
            } => {}
            Command::Walk {
                folder: _,
                query: _,
                chance: _,
                words: _,
            } => {}
            Command::Trial {
                size: _,
                workers: _,
            } => {}
        }
    }
}

// The options of `check` and `expect`, of `run`, of `audit` and `latency`, of `validate`, and of `walk`,
// which needs them all, and those that `run` needs.
const OF_CHECK: [OptionName; 1] = [OptionName::Frequencies];

const OF_RUN: [OptionName; 3] = [
    OptionName::Workers,
    OptionName::Ratio,
    OptionName::Frequencies,
];

const OF_AUDIT: [OptionName; 2] = [OptionName::Ratio, OptionName::Frequencies];

const OF_VALIDATE: [OptionName; 1] = [OptionName::Via];

const OF_WALK: [OptionName; 2] = [OptionName::Chance, OptionName::Words];

const NEEDED_BY_RUN: [OptionName; 1] = [OptionName::Workers];

// Whether a line has these options and no others, and its plain words are a folder, and the kind and the
// parameters of a read.
fn has_read(line: &Line<'_, '_>, options: &[OptionName]) -> bool
    ensures { IsTrue result
        ↔ (AreSuited options.now options.now (given_of line.now.given) × HaveRead (texts_of line.now.plain.now)) }
{
    if !line.given.are_suited(options, options) {
        return false;
    }
    match line.plain {
        [_, kind, parameters @ ..] => is_read(kind, parameters),
        _ => false,
    }
}

// Whether the parts of a line are those of a trial.
fn is_trial_line(line: &Line<'_, '_>) -> bool
    ensures { IsTrue result ↔ AreSome (codes "trial") (texts_of line.now.plain.now) (given_of line.now.given) }
{
    if !line.suits(2, &[], &[]) {
        return false;
    }
    size_of(line.plain[0]).is_some() && workers_of(line.plain[1]).is_some()
}

// Whether the parts of a line are those of a command. The condition: each word that is given is a value of
// its option.
fn is_command(line: &Line<'_, '_>) -> bool
    requires { AreValues (given_of line.now.given) }
    ensures { IsTrue result ↔ AreSome line.now.name.now (texts_of line.now.plain.now) (given_of line.now.given) }
{
    match line.name {
        "check" => line.suits(1, &OF_CHECK, &[]),
        "run" => line.suits(1, &OF_RUN, &NEEDED_BY_RUN),
        "audit" => line.suits(2, &OF_AUDIT, &[]),
        "latency" => line.suits(2, &OF_AUDIT, &[]),
        "expect" => line.suits(1, &OF_CHECK, &[]),
        "validate" => line.suits(2, &OF_VALIDATE, &[]),
        "read" => has_read(line, &[]),
        "walk" => has_read(line, &OF_WALK),
        "trial" => is_trial_line(line),
        _ => false,
    }
}

// The check whose words were found.
fn check_in(alloc: Global, matches: &ArgMatches<'_>) -> Result<Command, AllocError>
    requires { IsFoundBy (codes "check") (first_value (found_of matches.now)) }
    ensures { IfOk result (AreFoundOf (codes "check") (first_value (found_of matches.now))) }
{
    let folder = text_at(alloc, matches, "first")?;
    let frequencies = frequencies_in(matches);
    Ok(Command::Check {
        folder,
        frequencies,
    })
}

// The `expect` whose words were found.
fn expect_in(alloc: Global, matches: &ArgMatches<'_>) -> Result<Command, AllocError>
    requires { IsFoundBy (codes "expect") (first_value (found_of matches.now)) }
    ensures { IfOk result (AreFoundOf (codes "expect") (first_value (found_of matches.now))) }
{
    let folder = text_at(alloc, matches, "first")?;
    let frequencies = frequencies_in(matches);
    Ok(Command::Expect {
        folder,
        frequencies,
    })
}

// The run whose words were found.
fn run_in(alloc: Global, matches: &ArgMatches<'_>) -> Result<Command, AllocError>
    requires { IsFoundBy (codes "run") (first_value (found_of matches.now)) }
    ensures { IfOk result (AreFoundOf (codes "run") (first_value (found_of matches.now))) }
{
    let folder = text_at(alloc, matches, "first")?;
    let workers = workers_in(matches, "workers");
    let ratio = ratio_in(matches);
    let frequencies = frequencies_in(matches);
    Ok(Command::Run {
        folder,
        workers,
        ratio,
        frequencies,
    })
}

// The audit whose words were found.
fn audit_in(alloc: Global, matches: &ArgMatches<'_>) -> Result<Command, AllocError>
    requires { IsFoundBy (codes "audit") (first_value (found_of matches.now)) }
    ensures { IfOk result (AreFoundOf (codes "audit") (first_value (found_of matches.now))) }
{
    let folder = text_at(alloc, matches, "first")?;
    let log = text_at(alloc, matches, "second")?;
    let ratio = ratio_in(matches);
    let frequencies = frequencies_in(matches);
    Ok(Command::Audit {
        folder,
        log,
        ratio,
        frequencies,
    })
}

// The `latency` whose words were found.
fn latency_in(alloc: Global, matches: &ArgMatches<'_>) -> Result<Command, AllocError>
    requires { IsFoundBy (codes "latency") (first_value (found_of matches.now)) }
    ensures { IfOk result (AreFoundOf (codes "latency") (first_value (found_of matches.now))) }
{
    let folder = text_at(alloc, matches, "first")?;
    let log = text_at(alloc, matches, "second")?;
    let ratio = ratio_in(matches);
    let frequencies = frequencies_in(matches);
    Ok(Command::Latency {
        folder,
        log,
        ratio,
        frequencies,
    })
}

// The validation whose words were found.
fn validate_in(alloc: Global, matches: &ArgMatches<'_>) -> Result<Command, AllocError>
    requires { IsFoundBy (codes "validate") (first_value (found_of matches.now)) }
    ensures { IfOk result (AreFoundOf (codes "validate") (first_value (found_of matches.now))) }
{
    let folder = text_at(alloc, matches, "first")?;
    let cases = text_at(alloc, matches, "second")?;
    let via = via_in(matches);
    Ok(Command::Validate { folder, cases, via })
}

// The read whose words were found.
fn read_in(alloc: Global, matches: &ArgMatches<'_>) -> Result<Command, AllocError>
    requires { IsFoundBy (codes "read") (first_value (found_of matches.now)) }
    ensures { IfOk result (AreFoundOf (codes "read") (first_value (found_of matches.now))) }
{
    let folder = text_at(alloc, matches, "first")?;
    let query = query_in(alloc, matches)?;
    Ok(Command::Read { folder, query })
}

// The walk whose words were found.
fn walk_in(alloc: Global, matches: &ArgMatches<'_>) -> Result<Command, AllocError>
    requires { IsFoundBy (codes "walk") (first_value (found_of matches.now)) }
    ensures { IfOk result (AreFoundOf (codes "walk") (first_value (found_of matches.now))) }
{
    let folder = text_at(alloc, matches, "first")?;
    let query = query_in(alloc, matches)?;
    let chance = chance_in(matches);
    let words = words_in(alloc, matches)?;
    Ok(Command::Walk {
        folder,
        query,
        chance,
        words,
    })
}

// The trial whose words were found.
fn trial_in(matches: &ArgMatches<'_>) -> Command
    requires { IsFoundBy (codes "trial") (first_value (found_of matches.now)) }
    ensures { AreFoundOf (codes "trial") (first_value (found_of matches.now)) result }
{
    let size = size_in(matches, "first");
    let workers = workers_in(matches, "second");
    Command::Trial { size, workers }
}

// The command of this name whose words were found.
fn command_in(alloc: Global, name: &str, matches: &ArgMatches<'_>) -> Result<Command, AllocError>
    requires { IsFoundBy name.now (first_value (found_of matches.now)) }
    ensures { IfOk result (AreFoundOf name.now (first_value (found_of matches.now))) }
{
    match name {
        "check" => check_in(alloc, matches),
        "run" => run_in(alloc, matches),
        "audit" => audit_in(alloc, matches),
        "latency" => latency_in(alloc, matches),
        "expect" => expect_in(alloc, matches),
        "validate" => validate_in(alloc, matches),
        "read" => read_in(alloc, matches),
        "walk" => walk_in(alloc, matches),
        "trial" => Ok(trial_in(matches)),
        _ => unreachable!(),
    }
}

// The command of this name that the words say, as `clap` takes them apart.
fn take(alloc: Global, name: &str, words: &[&str]) -> Result<Command, AllocError>
    requires { IsLineBy name.now (texts_of words.now) }
    ensures { IfOk result (IsLineOf (texts_of words.now)) }
{
    let matches = matches_in(alloc, words)?;
    command_in(alloc, name, &matches)
}

// Whether the command whose parts these are asks a table of handlers.
fn asks(line: &Line<'_, '_>) -> bool
    ensures { (command : AnyCommand) → AreOf command line.now.name.now (texts_of line.now.plain.now)
        (given_of line.now.given) → result ≡ needs_table command }
{
    match line.name {
        "walk" => true,
        "validate" => line.given.via.is_some(),
        _ => false,
    }
}

/// Whether the command that the words are the line of asks a table of handlers, or None where they are no command's
/// line. Takes no memory.
pub fn asks_table(words: &[&str]) -> Option<bool>
    ensures { MatchOption result (IsOtherLine (texts_of words.now))
        (λ asks. (command : AnyCommand) × IsLineOf (texts_of words.now) command × (needs_table command ≡ asks)) }
{
    let Some(line) = line_of(words) else {
        return None;
    };
    if !is_command(&line) {
        return None;
    }
    Some(asks(&line))
}

// Whether this is the name of a command that runs a plan.
fn is_run(name: &str) -> bool
    ensures { (command : AnyCommand) → name.now ≡ (form_of command).name → command_waits command ≡ result }
{
    match name {
        "run" => true,
        "trial" => true,
        _ => false,
    }
}

/// Whether the command that the words are the line of runs a plan, and so waits. Of words that are no command's line
/// it says nothing. Takes no memory.
pub fn waits(words: &[&str]) -> bool
    ensures { (command : AnyCommand) → IsLineOf (texts_of words.now) command → command_waits command ≡ result }
{
    match words {
        [name, ..] => is_run(name),
        [] => false,
    }
}

/// The command that the words are the line of, or None where they are no command's line. The error is
/// want of memory, which never comes of words that are no command's line.
///
/// A line is a command's name, plain words, none of which is empty or begins with `-`, and options of two
/// words each, in any order, each at most once: some that the command admits, all that it needs among
/// them.
pub fn command_of(alloc: Global, words: &[&str]) -> Result<Option<Command>, AllocError>
    ensures is_line { IfOk result
        (λ found. MatchOption found (IsOtherLine (texts_of words.now)) (IsLineOf (texts_of words.now))) }
    ensures runnable { IfOk result (λ found. IfSome found IsRunnable) }
    ensures memory { OnErr result (¬ IsOtherLine (texts_of words.now)) }
{
    let Some(line) = line_of(words) else {
        return Ok(None);
    };
    if !is_command(&line) {
        return Ok(None);
    }
    Ok(Some(take(alloc, line.name, words)?))
}
