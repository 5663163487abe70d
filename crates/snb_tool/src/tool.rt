//! The one call that does all that the program does.

ghost use Rattle.std.specs.Prelude.{◌≡◌, ◌≤◌, ◌⊎◌, None, ◌≢◌, false, true, IfOk, IsSome, MatchOption, OnErr};
ghost use Rattle.snb_base.specs.Moments.{Moments};
ghost use Rattle.snb_base.specs.Reads.{IsShelfRead};
ghost use Rattle.snb_handlers.specs.Table.{kinds};
ghost use Rattle.snb_input_files.specs.Loading.{is_read_fault};
ghost use Rattle.snb_input_files.specs.Names.{Allows};
ghost use Rattle.snb_tool_words.specs.declared.command.Command.{Command as AnyCommand};
ghost use Rattle.snb_tool_words.specs.Commands.{IsLineOf};
ghost use Rattle.snb_tool_words.specs.CommandFacts.{folder_of, needs_table, command_waits};
ghost use Rattle.snb_tool_words.specs.Words.{texts_of};
ghost use Rattle.snb_tool.specs.Connectors.{given_by};
ghost use Rattle.snb_tool_outcome.specs.Endings.{IsFinished, LacksKind, asked_by};
ghost use Rattle.snb_tool_outcome.specs.Found.{Given};
ghost use Rattle.snb_tool_outcome.specs.Names.{IsNameOf, MayAskFor};
ghost use Rattle.snb_tool_outcome.specs.Outcome.{IsCallAnswer, IsAsked, IsOther, alone, with};
ghost use Rattle.snb_tool_outcome.specs.Served.{AreWaiting, HasServed, ReadsNothing};
ghost use Rattle.snb_tool_outcome.specs.Outside.{EndsAs, IsReadOnly, seen};

use crate::law::{answers_have_status, refusal_is_one};
use crate::table::{validate_via, walk_via};
use snb_base::{Clock, Gate, Outbox, Shelf};
use snb_handlers::Handlers;
use snb_input_files::Load;
use snb_read_replies::OwnReads;
use snb_tool_dataset::{check, expect, read, validate};
use snb_tool_outcome::{Finished, finish, show_as};
use snb_tool_plan::{audit, latency, obey_waiting};
use snb_tool_words::{Command, Via, asks_table, command_of, one_command, waits};
use snb_walk::Policy;
use std::alloc::{AllocError, Global};
use std::sync::Wait;
use std::thread::Threads;

/// What is shown for words that aren't a line of the program's.
const USAGE: &str =
    "usage: snb COMMAND, where COMMAND is check, run, audit, latency, expect, validate, read, walk or trial\n";

// Does what a command says that waits for nothing, and answers it. The conditions: it is such a command (`still`), one
// that asks a table is given one (`given`), and the shelf may be asked for the names of the command (`allowed`).
fn obey<S: Shelf>(
    alloc: Global,
    command: &Command,
    shelf: &mut S,
    given: Option<(&Handlers, &Policy)>,
) -> Result<Finished, Load>
    requires still { command_waits command.now ≡ false }
    requires given { needs_table command.now ≡ true → IsSome given }
    requires allowed { Allows (S.may shelf.old) (IsNameOf command.now) }
    ensures answer { (moments : Moments) → IsFinished command.now (S.contents shelf.old) (given_by given.entry)
        moments result }
    ensures unread { folder_of command.now ≡ None → shelf.new ≡ shelf.old }
    ensures unasked { needs_table command.now ≡ true → LacksKind (given_by given.entry) → shelf.new ≡ shelf.old }
    ensures read { IsShelfRead (is_read_fault result) S.Shelf shelf.old shelf.new }
{
    match command {
        Command::Check {
            folder,
            frequencies,
        } => check(alloc, shelf, folder.as_str(), *frequencies),
        Command::Audit {
            folder,
            log,
            ratio,
            frequencies,
        } => audit(
            alloc,
            &OwnReads,
            shelf,
            folder.as_str(),
            log.as_str(),
            *ratio,
            *frequencies,
        ),
        Command::Latency {
            folder,
            log,
            ratio,
            frequencies,
        } => latency(
            alloc,
            &OwnReads,
            shelf,
            folder.as_str(),
            log.as_str(),
            *ratio,
            *frequencies,
        ),
        Command::Expect {
            folder,
            frequencies,
        } => expect(alloc, &OwnReads, shelf, folder.as_str(), *frequencies),
        Command::Validate { folder, cases, via } => match via {
            Via::Graph => validate(alloc, &OwnReads, shelf, folder.as_str(), cases.as_str()),
            Via::Table => match given {
                Some((handlers, _)) => {
                    validate_via(alloc, handlers, shelf, folder.as_str(), cases.as_str())
                }
                None => unreachable!(),
            },
        },
        Command::Read { folder, query } => read(alloc, &OwnReads, shelf, folder.as_str(), query),
        Command::Walk {
            folder,
            query,
            chance,
            words,
        } => match given {
            Some((handlers, policy)) => walk_via(
                alloc,
                handlers,
                policy,
                shelf,
                folder.as_str(),
                query,
                *chance,
                words.as_slice(),
            ),
            None => unreachable!(),
        },
        Command::Run { .. } | Command::Trial { .. } => unreachable!(),
    }
}

// Whether the words ask a table, and none is given. Only where none is given are they looked at.
fn lacks_table(words: &[&str], given: Option<(&Handlers, &Policy)>) -> bool
    ensures lacks { result ≡ true → (command : AnyCommand) × IsLineOf (texts_of words.now) command
        × (needs_table command ≡ true) × ¬ IsSome (given_by given.entry) }
    ensures has { result ≡ false → (command : AnyCommand) → IsLineOf (texts_of words.now) command
        → needs_table command ≡ true → IsSome (given_by given.entry) }
{
    one_command();
    match given {
        Some(_) => false,
        None => asks_table(words).unwrap_or(false),
    }
}

// The command that the words are the line of, where it can be done: one that asks a table needs one.
fn asked_command(
    alloc: Global,
    words: &[&str],
    given: Option<(&Handlers, &Policy)>,
) -> Result<Option<Command>, AllocError>
    ensures is { IfOk result
        (λ found. MatchOption found (IsOther (asked_by words.now (given_by given.entry)))
        (IsAsked (asked_by words.now (given_by given.entry)))) }
    ensures memory { OnErr result (¬ IsOther (asked_by words.now (given_by given.entry))) }
{
    one_command();
    if lacks_table(words, given) {
        return Ok(None);
    }
    command_of(alloc, words)
}

// Answers words that run no plan, with a table of handlers and a policy or without them.
fn answer<S: Shelf, O: Outbox>(
    alloc: Global,
    words: &[&str],
    shelf: &mut S,
    out: &mut O,
    given: Option<(&Handlers, &Policy)>,
) -> u8
    requires still { AreWaiting false (texts_of words.now) }
    requires allowed { MayAskFor (S.may shelf.old) (asked_by words.now (given_by given)) }
    ensures ends { (moments : Moments) → EndsAs (IsCallAnswer (asked_by words.now (given_by given.entry)))
        (seen S.Shelf O.Outbox moments shelf.old shelf.new out.old out.new) result }
    ensures other_line { IsOther (asked_by words.now (given_by given.entry))
        → ((result ≡ 2) ⊎ (result ≡ 5)) × (shelf.new ≡ shelf.old) }
    ensures unread { ReadsNothing (asked_by words.now (given_by given.entry)) → shelf.new ≡ shelf.old }
    ensures read_only { IsReadOnly S.Shelf shelf.old shelf.new }
    ensures reads_calm { result ≢ 4 → S.faults shelf.new ≡ S.faults shelf.old }
    ensures writes_later { O.faults out.old ≤ O.faults out.new }
    ensures writes_calm { result ≢ 5 → O.faults out.new ≡ O.faults out.old }
{
    one_command();
    match asked_command(alloc, words, given) {
        Ok(Some(command)) => {
            let answer = obey(alloc, &command, shelf, given);
            finish(alloc, out, answer)
        }
        Ok(None) => show_as(out, USAGE.as_bytes(), 2),
        Err(_) => 6,
    }
}

// Answers words that run a plan, whatever is given beside them.
fn answer_waiting<
    R: AllocGlobal + Threads + Wait + Sync,
    S: Shelf,
    O: Outbox,
    C: Clock + Sync,
    G: Gate + Sync,
>(rt: &R, words: &[&str], shelf: &mut S, out: &mut O, clock: &C, gate: &G) -> u8
    requires waiting { AreWaiting true (texts_of words.now) }
    requires allowed { (given : Given) → MayAskFor (S.may shelf.old) (asked_by words.now given) }
    ensures ends { (given : Given) → EndsAs (IsCallAnswer (asked_by words.now given))
        (seen S.Shelf O.Outbox (C.moments clock.now) shelf.old shelf.new out.old out.new) result }
    ensures other_line { (given : Given) → IsOther (asked_by words.now given)
        → ((result ≡ 2) ⊎ (result ≡ 5)) × (shelf.new ≡ shelf.old) }
    ensures unread { (given : Given) → ReadsNothing (asked_by words.now given) → shelf.new ≡ shelf.old }
    ensures read_only { IsReadOnly S.Shelf shelf.old shelf.new }
    ensures reads_calm { result ≢ 4 → S.faults shelf.new ≡ S.faults shelf.old }
    ensures writes_later { O.faults out.old ≤ O.faults out.new }
    ensures writes_calm { result ≢ 5 → O.faults out.new ≡ O.faults out.old }
{
    one_command();
    match command_of(rt.alloc(), words) {
        Ok(Some(command)) => {
            let answer = obey_waiting(rt, &OwnReads, &command, shelf, clock, gate);
            finish(rt.alloc(), out, answer)
        }
        Ok(None) => show_as(out, USAGE.as_bytes(), 2),
        Err(_) => 6,
    }
}

/// Does what `snb_with` does with words that run no plan: all commands but `run` and `trial`. It can neither wait nor
/// start a thread, and so it returns.
///
/// The conditions: the words are no line of `run` nor of `trial` (`still`), as `snb_tool_words::waits` tells; and
/// `allowed`, which is that of `snb_with`. What it promises is what `snb_with` does, whatever moments a clock could
/// answer.
pub fn snb_still<R: AllocGlobal, S: Shelf, O: Outbox>(
    rt: &R,
    words: &[&str],
    shelf: &mut S,
    out: &mut O,
    handlers: &Handlers,
    policy: &Policy,
) -> u8
    requires still { AreWaiting false (texts_of words.now) }
    requires allowed { MayAskFor (S.may shelf.old) (with words.now (kinds handlers.now) policy.now.pick) }
    ensures { (moments : Moments) → HasServed S.Shelf O.Outbox moments
        (with words.now (kinds handlers.now) policy.now.pick) shelf.old shelf.new out.old out.new result }
{
    one_command();
    refusal_is_one();
    answers_have_status();
    answer(rt.alloc(), words, shelf, out, Some((handlers, policy)))
}

/// Does what a line of words says. The words are those after the program's name. `handlers` is a table of what
/// answers reads in place of the graph's own reads, and `policy` picks where a walk goes; `validate` with
/// `--via table` asks the first, `walk` asks both, and the other commands ask neither.
///
/// - `check DIR` reads the 33 tables of the folder `DIR` from the shelf, then its update streams, and
///   the parameter files of the queries with a frequency, and shows how many rows the dataset has and how
///   many updates and reads the plan. The updates must be closed over the dataset: each has new keys, and
///   each finds the nodes that it refers to there, among the persons and forums added up to its t_d, or among what
///   the updates before it in its lane add.
/// - `run DIR --workers N` reads the same, runs the plan by N workers, 1 to 8, each in a thread of its own where
///   one can be made, and writes the log, the answers, the final graph and the summary on their channels. The log
///   states how many operations the plan has, and at each Finish how many rows the read gave.
/// - `audit DIR LOG` reads the same, then the log of a run of that plan, and shows the verdict on it: that it
///   states another number of operations than the plan has; else the first event that doesn't fit those
///   before it, with the first rule that it breaks and two values; else the first Finish with a wrong count of
///   rows; else the worker that halted first; else the least operation that isn't finished; else how many operations
///   there are and how many of them were on time, started at most 1000 milliseconds after they were due: it
///   is accepted where these are at least 95 of 100. The log is a file of its own, and its path isn't taken
///   from `DIR`.
/// - `latency DIR LOG` reads what `audit` reads. Where the log is that of a whole run, of which `audit` says that it
///   is accepted or late, it shows the summary of the run: for each kind of operation how many there were, and
///   the least, the 50th, 90th, 95th and 99th percentile and the greatest of their latencies, from Start to
///   Finish; of their lateness, from the due time to the Start; and of their slack, from the last Finish of all
///   that they wait for to the Start. A percentile p of n values is the one of rank p hundredths of n, rounded
///   up. Else it shows what `audit` shows.
/// - `expect DIR` reads what `check` reads, and writes the cases of the plan, a file by which `validate` checks
///   the replies of a database: a line for each operation in the order of their numbers, with the insert, or
///   with the query and the reply to it on the dataset with the inserts before it. It shows how many there are.
/// - `validate DIR CASES` reads the tables, then a file of cases, which are inserts and reads with the
///   replies that are due. Each read is answered on the tables with the inserts of the cases before it. It
///   shows how many reads there are where all replies are those that are due, and else the first that
///   isn't, with its line, the one that is due and the one that is given. With `--via table` the handlers answer
///   the reads; each kind of read must have one.
/// - `check`, `run`, `audit`, `latency` and `expect` take the option `--freq L`, where L has `q:f` for complex
///   queries q and their frequencies f, by rising q and with commas between; without it no read is planned.
///   `run`, `audit` and `latency` take `--ratio R`, by which due times are stretched; it is 1 without it.
/// - `read DIR KIND P1 P2 P3` reads the tables and shows the reply to one read: its answer, and those of
///   the short reads that follow. KIND is `IS1` to `IS7`, `IC1`, `IC2`, `IC7`, `IC8`, `IC9`, `IC11` or
///   `IC13`, with as many parameters as it has: an id of a person or a message for a short read, of a
///   person first for a complex one; then a first name for `IC1`, a date for `IC2` and `IC9`, the name of
///   a country and a year for `IC11`, and a second person for `IC13`.
/// - `walk DIR KIND P1 P2 P3 --chance S:D --words L` reads the tables and takes a walk of short reads, which begins
///   with the answer to the read that `read` would show. S, up to 1000000, is the chance of the first step, and D,
///   1 to 1000000, what it falls by with each step, both in millionths; L has 1 to 1000 numbers with commas between,
///   two for each step. A step is taken where its first number, modulo 1000000, is below the chance, and goes to the
///   person or the message among those of the answers just before that the policy picks by its second number. It
///   asks IS1, IS2 and IS3 of a person, IS4, IS5, IS6 and IS7 of a message. The answer that the walk began with, each
///   step with its reply, and why the walk stopped are shown, each on a line. The handlers answer all reads; each
///   kind of read must have one.
/// - `trial SIZE N` runs a workload made by a formula, of this size, 1 to 5000, by N workers, 1 to 8, and writes
///   what `run` writes. No file is read, and the shelf is as it was. The dataset has 10 rows, and for each number
///   from 1 to SIZE there are seven updates: a person, a friendship, a forum, a membership, a post, a comment and a
///   like. Every tenth update goes with a read of query 2, and every seventh with one of query 13.
///
/// No word is empty, and none but an option's name begins with `-`. The options follow all other words, each
/// as two words and at most once, in any order.
///
/// What was read is the files that the shelf tells; of a shelf that tells none there are some files of
/// which all this is true.
///
/// The condition `allowed`: the shelf may be asked for the names of the command that the words are the line of.
/// These are the files of the command in `DIR`, and `LOG` or `CASES`. For `trial`, and for words that are no line
/// of the program's, there are none. No other name is asked for.
///
/// Answers the exit status:
///
/// - 0: done, and all texts are written whole; of `audit`, the log is accepted; of `latency`, it is accepted or
///   late; of `validate`, no reply differs.
/// - 1: of `audit`, `latency` and `validate` alone: the log isn't accepted, nor late for `latency`, or a reply
///   differs, and why is on the screen.
/// - 2: the words are no line of the program's; nothing was read, and the usage is on the screen.
/// - 3: the first thing that is wrong is on the screen, and nothing else was written. Of a command that asks the
///   handlers that may be a kind of read without one, which is looked for before anything is read; else it is in the
///   files.
/// - 4: the shelf failed; nothing was written. With any other status its count of faults is as it was.
/// - 5: the outbox failed. Each channel has a prefix of its text, and in the order log, answers,
///   final text, cases, screen nothing follows a text that isn't whole. With any other status its count of
///   faults is as it was.
/// - 6: memory didn't suffice; nothing was written.
///
/// The formats and the order of the operations are those of the Social Network Benchmark's
/// Interactive workload, version 1 (Erling et al., SIGMOD 2015).
pub fn snb_with<
    R: AllocGlobal + Threads + Wait + Sync,
    S: Shelf,
    O: Outbox,
    C: Clock + Sync,
    G: Gate + Sync,
>(
    rt: &R,
    words: &[&str],
    shelf: &mut S,
    out: &mut O,
    clock: &C,
    gate: &G,
    handlers: &Handlers,
    policy: &Policy,
) -> u8
    requires allowed { MayAskFor (S.may shelf.old) (with words.now (kinds handlers.now) policy.now.pick) }
    ensures { HasServed S.Shelf O.Outbox (C.moments clock.now) (with words.now (kinds handlers.now) policy.now.pick)
        shelf.old shelf.new out.old out.new result }
{
    one_command();
    refusal_is_one();
    answers_have_status();
    if waits(words) {
        return answer_waiting(rt, words, shelf, out, clock, gate);
    }
    snb_still(rt, words, shelf, out, handlers, policy)
}

/// Does what `snb_with` does, without a table of handlers and a policy: a line that asks a table, which is one of
/// `walk` or of `validate` with `--via table`, is answered as one that is no line of the program's. The condition
/// `allowed` is that of `snb_with`.
pub fn snb<
    R: AllocGlobal + Threads + Wait + Sync,
    S: Shelf,
    O: Outbox,
    C: Clock + Sync,
    G: Gate + Sync,
>(rt: &R, words: &[&str], shelf: &mut S, out: &mut O, clock: &C, gate: &G) -> u8
    requires allowed { MayAskFor (S.may shelf.old) (alone words.now) }
    ensures { HasServed S.Shelf O.Outbox (C.moments clock.now) (alone words.now) shelf.old shelf.new out.old out.new
        result }
{
    one_command();
    refusal_is_one();
    answers_have_status();
    if waits(words) {
        return answer_waiting(rt, words, shelf, out, clock, gate);
    }
    answer(rt.alloc(), words, shelf, out, None)
}
