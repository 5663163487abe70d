//! The command `expect`.

ghost use Rattle.std.specs.Prelude.{IfOk};
ghost use Rattle.snb_base.specs.Moments.{Moments};
ghost use Rattle.snb_base.specs.Reads.{IsShelfRead};
ghost use Rattle.snb_input_files.specs.Loading.{is_read_fault};
ghost use Rattle.snb_input_files.specs.Names.{Allows};
ghost use Rattle.snb_plan.specs.Closed.{IsClosed};
ghost use Rattle.snb_plan.specs.Plans.{updates_in};
ghost use Rattle.snb_graph_model.specs.Graphs.{HoldsKey};
ghost use Rattle.snb_graph_model.specs.Soundness.{Sound};
ghost use Rattle.snb_tool_words.specs.declared.command.Command.TheVariants.{Expect};
ghost use Rattle.snb_tool_outcome.specs.Endings.{IsFinished, bytes_of};
ghost use Rattle.snb_tool_outcome.specs.DatasetEndings.{AreCasesOf};
ghost use Rattle.snb_tool_outcome.specs.Found.{Given};
ghost use Rattle.snb_tool_outcome.specs.Names.{IsNameOf};

use snb_base::Shelf;
use snb_input_files::Load;
use snb_ratio::Ratio;
use snb_replies::Replies;
use snb_schema::Frequencies;
use snb_streams::params_files;
use snb_tool_outcome::{Finished, Input, Output, load_input};
use snb_validation_expect::{count_line, expect_via};
use std::alloc::{AllocError, Global};

// The texts of the cases of an input's plan over its dataset.
fn cases_of<A: Replies>(alloc: Global, answers: &A, input: Input) -> Result<Output, AllocError>
    requires ready { A.ready answers.now }
    requires closed { IsClosed (HoldsKey input.graph) (updates_in input.plan) }
    requires sound { Sound input.graph }
    ensures { IfOk result (λ output. AreCasesOf input (bytes_of output)) }
{
    let (graph, plan) = input.into_parts();
    plan.known();
    let operations = plan.schedule().steps().len() as u64;
    let mut cases = Vec::new(alloc);
    expect_via(alloc, answers, &plan, graph, &mut cases)?;
    let screen = count_line(alloc, operations)?;
    Ok(Output {
        log: Vec::new(alloc),
        answers: Vec::new(alloc),
        finals: Vec::new(alloc),
        cases,
        screen,
    })
}

/// Reads the tables, the streams and the parameter files of a folder, and makes the cases of their plan over
/// the dataset. What answers their reads is ready, and the shelf may be asked for these files (`allowed`).
pub fn expect<S: Shelf, A: Replies>(
    alloc: Global,
    answers: &A,
    shelf: &mut S,
    folder: &str,
    frequencies: Frequencies,
) -> Result<Finished, Load>
    requires ready { A.ready answers.now }
    requires allowed { Allows (S.may shelf.old) (IsNameOf (Expect folder.now frequencies)) }
    ensures answer { (given : Given) (moments : Moments)
        → IsFinished (Expect folder.now frequencies) (S.contents shelf.old) given moments result }
    ensures read { IsShelfRead (is_read_fault result) S.Shelf shelf.old shelf.new }
{
    params_files();
    let input = load_input(alloc, shelf, folder, Ratio::one(), frequencies)?;
    let output = cases_of(alloc, answers, input)?;
    Ok(Finished { output, status: 0 })
}
