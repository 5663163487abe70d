//! The commands that run a plan.

ghost use Rattle.std.specs.Prelude.{◌≡◌, None, true};
ghost use Rattle.snb_base.specs.Reads.{IsShelfRead};
ghost use Rattle.snb_input_files.specs.Loading.{is_read_fault};
ghost use Rattle.snb_input_files.specs.Names.{Allows};
ghost use Rattle.snb_tool_words.specs.CommandFacts.{IsRunnable, folder_of, command_waits};
ghost use Rattle.snb_tool_outcome.specs.Endings.{IsFinished};
ghost use Rattle.snb_tool_outcome.specs.Found.{Given};
ghost use Rattle.snb_tool_outcome.specs.Names.{IsNameOf};

use crate::run_command::run;
use crate::trial_command::trial;
use snb_base::{Clock, Gate, Shelf};
use snb_input_files::Load;
use snb_replies::Replies;
use snb_tool_outcome::Finished;
use snb_tool_words::Command;
use std::sync::Wait;
use std::thread::Threads;

/// Does what a command says that runs a plan, and answers it. The conditions: what answers reads is ready; the command
/// is one that runs a plan (`waiting`), with numbers that it may have (`runnable`); and the shelf may be asked for its
/// names (`allowed`).
pub fn obey_waiting<
    R: AllocGlobal + Threads + Wait + Sync,
    A: Replies + Sync,
    S: Shelf,
    C: Clock + Sync,
    G: Gate + Sync,
>(
    rt: &R,
    answers: &A,
    command: &Command,
    shelf: &mut S,
    clock: &C,
    gate: &G,
) -> Result<Finished, Load>
    requires ready { A.ready answers.now }
    requires runnable { IsRunnable command.now }
    requires waiting { command_waits command.now ≡ true }
    requires allowed { Allows (S.may shelf.old) (IsNameOf command.now) }
    ensures answer { (given : Given) → IsFinished command.now (S.contents shelf.old) given (C.moments clock.now)
        result }
    ensures unread { folder_of command.now ≡ None → shelf.new ≡ shelf.old }
    ensures read { IsShelfRead (is_read_fault result) S.Shelf shelf.old shelf.new }
{
    match command {
        Command::Run {
            folder,
            workers,
            ratio,
            frequencies,
        } => run(
            rt,
            answers,
            shelf,
            folder.as_str(),
            *workers,
            *ratio,
            *frequencies,
            clock,
            gate,
        ),
        Command::Trial { size, workers } => trial(rt, answers, *size, *workers, clock, gate),
        _ => unreachable!(),
    }
}
