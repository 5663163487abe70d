//! The command `validate`.

ghost use Rattle.std.specs.Prelude.{◌≡◌, IfOk, Some, true};
ghost use Rattle.snb_base.specs.Moments.{Moments};
ghost use Rattle.snb_base.specs.Reads.{IsShelfRead};
ghost use Rattle.snb_handlers.specs.Table.{HasAll};
ghost use Rattle.snb_input_files.specs.Loading.{is_read_fault};
ghost use Rattle.snb_input_files.specs.Names.{Allows, IsNameIn};
ghost use Rattle.snb_loader.specs.Order.{table_series};
ghost use Rattle.snb_tool_words.specs.declared.command.Command.TheVariants.{Validate};
ghost use Rattle.snb_tool_words.specs.declared.options.Via.TheVariants as via;
ghost use Rattle.snb_tool_outcome.specs.Endings.{IsFinished};
ghost use Rattle.snb_tool_outcome.specs.DatasetEndings.{IsTallyAnswer, TellsTally};
ghost use Rattle.snb_tool_outcome.specs.Found.{Connector, Given};
ghost use Rattle.snb_tool_outcome.specs.Names.{IsNameOf};

use snb_base::Shelf;
use snb_input_files::{Load, Used};
use snb_loader::{load_dataset, one_dataset};
use snb_replies::Replies;
use snb_tool_outcome::Finished;
use snb_validation_check::{Tally, check_cases_via, one_cases_refusal, status_of, tally_lines};
use std::alloc::{AllocError, Global};

// Reads the tables of a folder, and checks the cases of a file over their graph.
fn tally_of<S: Shelf, A: Replies>(
    alloc: Global,
    answers: &A,
    shelf: &mut S,
    folder: &str,
    cases: &str,
) -> Result<Tally, Load>
    requires ready { A.ready answers.now }
    requires allowed { Allows (S.may shelf.old) (IsNameIn table_series folder.now) }
    requires cases { S.may shelf.old cases.now ≡ true }
    ensures answer { IsTallyAnswer (S.contents shelf.old) folder.now cases.now result }
    ensures read { IsShelfRead (is_read_fault result) S.Shelf shelf.old shelf.new }
{
    one_dataset();
    one_cases_refusal();
    let mut used = Used { bytes: 0, rows: 0 };
    let graph = load_dataset(alloc, shelf, folder, &mut used)?;
    check_cases_via(alloc, shelf, cases, graph, answers)
}

// What is shown of a tally, with its status.
fn finished_of(alloc: Global, tally: &Tally) -> Result<Finished, AllocError>
    ensures { IfOk result (TellsTally tally.now) }
{
    let text = tally_lines(alloc, tally)?;
    Ok(Finished::shown(alloc, text, status_of(tally)))
}

/// Reads the tables of a folder, and checks the replies of the cases of a file over their graph with the
/// inserts of the cases. What answers the reads is ready, and the shelf may be asked for the tables and for the cases
/// (`allowed`).
///
/// This is what the command answers without a table (`graph`), and by a table in which each kind of read has a handler
/// (`table`).
pub fn validate<S: Shelf, A: Replies>(
    alloc: Global,
    answers: &A,
    shelf: &mut S,
    folder: &str,
    cases: &str,
) -> Result<Finished, Load>
    requires ready { A.ready answers.now }
    requires allowed { Allows (S.may shelf.old) (IsNameOf (Validate folder.now cases.now via.Graph)) }
    ensures graph { (given : Given) (moments : Moments)
        → IsFinished (Validate folder.now cases.now via.Graph) (S.contents shelf.old) given moments result }
    ensures table { (c : Connector) (moments : Moments) → HasAll c.kinds
        → IsFinished (Validate folder.now cases.now via.Table) (S.contents shelf.old) (Some c) moments result }
    ensures read { IsShelfRead (is_read_fault result) S.Shelf shelf.old shelf.new }
{
    let tally = tally_of(alloc, answers, shelf, folder, cases)?;
    Ok(finished_of(alloc, &tally)?)
}
