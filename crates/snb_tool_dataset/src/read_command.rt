//! The command `read`.

ghost use Rattle.std.specs.Prelude.{IfOk};
ghost use Rattle.snb_base.specs.Moments.{Moments};
ghost use Rattle.snb_base.specs.Reads.{IsShelfRead};
ghost use Rattle.snb_input_files.specs.Loading.{is_read_fault};
ghost use Rattle.snb_input_files.specs.Names.{Allows, IsNameIn};
ghost use Rattle.snb_graph_model.specs.Soundness.{Sound};
ghost use Rattle.snb_loader.specs.Order.{table_series};
ghost use Rattle.snb_tool_words.specs.declared.command.Command.TheVariants.{Read};
ghost use Rattle.snb_tool_outcome.specs.Endings.{IsFinished};
ghost use Rattle.snb_tool_outcome.specs.DatasetEndings.{IsReplyAnswer, IsReplyLine};
ghost use Rattle.snb_tool_outcome.specs.Found.{Given};
ghost use Rattle.snb_tool_outcome.specs.Names.{IsNameOf};

use snb_base::Shelf;
use snb_graph::Graph;
use snb_input_files::{Load, Used};
use snb_loader::load_dataset;
use snb_replies::Replies;
use snb_schema::Query;
use snb_tool_outcome::Finished;
use snb_validation::reply_text;
use std::alloc::{AllocError, Global};

// The line of the reply to a read.
fn reply_line<A: Replies>(
    alloc: Global,
    answers: &A,
    graph: &Graph,
    query: &Query,
) -> Result<Vec<u8>, AllocError>
    requires ready { A.ready answers.now }
    requires sound { Sound graph.now }
    ensures { IfOk result (λ line. IsReplyLine graph.now query.now line.items) }
{
    let reply = answers.reply_to(alloc, graph, query)?;
    let mut line = Vec::new(alloc);
    reply_text(&reply, &mut line)?;
    line.push(b'\n')?;
    Ok(line)
}

// Reads the tables of a folder, and gives the line of the reply to a read on them.
fn read_line<S: Shelf, A: Replies>(
    alloc: Global,
    answers: &A,
    shelf: &mut S,
    folder: &str,
    query: &Query,
) -> Result<Vec<u8>, Load>
    requires ready { A.ready answers.now }
    requires allowed { Allows (S.may shelf.old) (IsNameIn table_series folder.now) }
    ensures answer { IsReplyAnswer (S.contents shelf.old) folder.now query.now result }
    ensures read { IsShelfRead (is_read_fault result) S.Shelf shelf.old shelf.new }
{
    let mut used = Used { bytes: 0, rows: 0 };
    let graph = load_dataset(alloc, shelf, folder, &mut used)?;
    Ok(reply_line(alloc, answers, &graph, query)?)
}

/// Reads the tables of a folder, and answers a read on them. What answers it is ready, and the shelf may be asked for
/// the tables (`allowed`).
pub fn read<S: Shelf, A: Replies>(
    alloc: Global,
    answers: &A,
    shelf: &mut S,
    folder: &str,
    query: &Query,
) -> Result<Finished, Load>
    requires ready { A.ready answers.now }
    requires allowed { Allows (S.may shelf.old) (IsNameOf (Read folder.now query.now)) }
    ensures answer { (given : Given) (moments : Moments)
        → IsFinished (Read folder.now query.now) (S.contents shelf.old) given moments result }
    ensures read { IsShelfRead (is_read_fault result) S.Shelf shelf.old shelf.new }
{
    let line = read_line(alloc, answers, shelf, folder, query)?;
    Ok(Finished::shown(alloc, line, 0))
}
