//! The command `walk`.

ghost use Rattle.std.specs.Prelude.{◌≡◌, ◌++◌, IfOk, List, OnOk, Some};
ghost use Rattle.snb_base.specs.Moments.{Moments};
ghost use Rattle.snb_base.specs.Reads.{IsShelfRead};
ghost use Rattle.snb_handlers.specs.Table.{HasAll};
ghost use Rattle.snb_input_files.specs.Loading.{is_read_fault};
ghost use Rattle.snb_input_files.specs.Names.{Allows, IsNameIn};
ghost use Rattle.snb_loader.specs.Order.{table_series};
ghost use Rattle.snb_schema.specs.declared.query.ReadKind.{ReadKind};
ghost use Rattle.snb_tool_words.specs.declared.command.Command.TheVariants.{Walk};
ghost use Rattle.snb_tool_outcome.specs.Endings.{IsFinished};
ghost use Rattle.snb_tool_outcome.specs.DatasetEndings.{IsWalkAnswer};
ghost use Rattle.snb_tool_outcome.specs.Names.{IsNameOf};
ghost use Rattle.snb_tool_outcome.specs.WalkTexts.{reply_line, step_line, stop_line, walk_text};

use snb_base::{Shelf, Text};
use snb_input_files::{Load, Used};
use snb_loader::load_dataset;
use snb_read_model::{CowText, Reply, lend_answer, lend_reply, reply_with_tail};
use snb_replies::Replies;
use snb_schema::Query;
use snb_tool_outcome::Finished;
use snb_validation::reply_text;
use snb_walk::{Chance, Policy, Stop, Target, Trace};
use std::alloc::{AllocError, Global};

// Appends the line of a reply after these words.
fn put_reply(words: &str, reply: &Reply<CowText<'_>>, to: &mut Vec<u8>) -> Result<(), AllocError>
    ensures { OnOk result (to.new.items ≡ to.old.items ++ words.now ++ reply_line reply.now) }
{
    to.extend_from_slice(words.as_bytes())?;
    reply_text(reply, to)?;
    to.push(b'\n')?;
    Ok(())
}

// Appends the line of a step.
fn put_step(alloc: Global, step: &(Target, Reply<Text>), to: &mut Vec<u8>) -> Result<(), AllocError>
    ensures { OnOk result (to.new.items ≡ to.old.items ++ step_line step.now) }
{
    let words = match step.0 {
        Target::Person { id } => format!(in alloc; "person {id} ")?,
        Target::Message { id } => format!(in alloc; "message {id} ")?,
    };
    put_reply(words.as_str(), &lend_reply(&step.1)?, to)
}

// The line of why a walk stopped.
fn stop_words(stop: Stop) -> &'static str
    ensures { result.now ≡ stop_line stop }
{
    match stop {
        Stop::Chance => "stop chance\n",
        Stop::Words => "stop words\n",
        Stop::Nowhere => "stop nowhere\n",
    }
}

// The text of a walk.
fn walk_lines(alloc: Global, trace: &Trace) -> Result<Vec<u8>, AllocError>
    ensures { IfOk result (λ text. text.items ≡ walk_text trace.now.start trace.now.steps trace.now.stop) }
{
    let start = reply_with_tail(alloc, lend_answer(&trace.start)?, Vec::new(alloc))?;
    let mut text = Vec::new(alloc);
    put_reply("start ", &start, &mut text)?;
    for step in trace.steps.as_slice() {
        put_step(alloc, step, &mut text)?;
    }
    text.extend_from_slice(stop_words(trace.stop).as_bytes())?;
    Ok(text)
}

// Reads the tables of a folder, and gives the text of a walk on them.
fn walk_of<S: Shelf, A: Replies>(
    alloc: Global,
    answers: &A,
    policy: &Policy,
    shelf: &mut S,
    folder: &str,
    query: &Query,
    chance: Chance,
    words: &[u64],
) -> Result<Vec<u8>, Load>
    requires ready { A.ready answers.now }
    requires allowed { Allows (S.may shelf.old) (IsNameIn table_series folder.now) }
    ensures answer { IsWalkAnswer (S.contents shelf.old) folder.now policy.now.pick query.now chance words.now result }
    ensures read { IsShelfRead (is_read_fault result) S.Shelf shelf.old shelf.new }
{
    let mut used = Used { bytes: 0, rows: 0 };
    let graph = load_dataset(alloc, shelf, folder, &mut used)?;
    let trace = snb_walk::walk(alloc, answers, policy, &graph, query, chance, words)?;
    Ok(walk_lines(alloc, &trace)?)
}

/// Reads the tables of a folder, and takes the walk of a query on them, which asks the policy where to go. What answers
/// its reads is ready, and the shelf may be asked for the tables (`allowed`).
///
/// This is what the command answers by a table in which each kind of read has a handler.
pub fn walk<S: Shelf, A: Replies>(
    alloc: Global,
    answers: &A,
    policy: &Policy,
    shelf: &mut S,
    folder: &str,
    query: &Query,
    chance: Chance,
    words: &[u64],
) -> Result<Finished, Load>
    requires ready { A.ready answers.now }
    requires allowed { Allows (S.may shelf.old) (IsNameOf (Walk folder.now query.now chance words.now)) }
    ensures answer { (kinds : List ReadKind) (moments : Moments) → HasAll kinds
        → IsFinished (Walk folder.now query.now chance words.now) (S.contents shelf.old)
        (Some (record { kinds = kinds; pick = policy.now.pick })) moments result }
    ensures read { IsShelfRead (is_read_fault result) S.Shelf shelf.old shelf.new }
{
    let text = walk_of(alloc, answers, policy, shelf, folder, query, chance, words)?;
    Ok(Finished::shown(alloc, text, 0))
}
