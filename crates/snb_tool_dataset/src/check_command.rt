//! The command `check`.

ghost use Rattle.std.specs.Prelude.{◌≡◌, IfOk};
ghost use Rattle.snb_base.specs.Moments.{Moments};
ghost use Rattle.snb_base.specs.Reads.{IsShelfRead};
ghost use Rattle.snb_input_files.specs.Loading.{is_read_fault};
ghost use Rattle.snb_input_files.specs.Names.{Allows};
ghost use Rattle.snb_tool_words.specs.declared.command.Command.TheVariants.{Check};
ghost use Rattle.snb_tool_outcome.specs.Endings.{IsFinished};
ghost use Rattle.snb_tool_outcome.specs.Found.{Given};
ghost use Rattle.snb_tool_outcome.specs.Names.{IsNameOf};
ghost use Rattle.snb_tool_outcome.specs.Done.{check_of};

use snb_base::Shelf;
use snb_input_files::Load;
use snb_ratio::Ratio;
use snb_schema::Frequencies;
use snb_tool_outcome::{Finished, Input, load_input};
use snb_tool_texts::check_lines;
use std::alloc::{AllocError, Global};

// What is shown of an input, which is let go.
fn counts_of(alloc: Global, input: Input) -> Result<Vec<u8>, AllocError>
    ensures { IfOk result (λ text. text.items ≡ check_of input.graph input.plan) }
{
    check_lines(
        alloc,
        input.graph.rows(),
        input.plan.updates(),
        input.plan.reads(),
    )
}

/// Reads the tables, the streams and the parameter files of a folder, and counts the rows, updates and reads
/// that they have. The shelf may be asked for these files (`allowed`).
pub fn check<S: Shelf>(
    alloc: Global,
    shelf: &mut S,
    folder: &str,
    frequencies: Frequencies,
) -> Result<Finished, Load>
    requires allowed { Allows (S.may shelf.old) (IsNameOf (Check folder.now frequencies)) }
    ensures answer { (given : Given) (moments : Moments)
        → IsFinished (Check folder.now frequencies) (S.contents shelf.old) given moments result }
    ensures read { IsShelfRead (is_read_fault result) S.Shelf shelf.old shelf.new }
{
    let input = load_input(alloc, shelf, folder, Ratio::one(), frequencies)?;
    let text = counts_of(alloc, input)?;
    Ok(Finished::shown(alloc, text, 0))
}
