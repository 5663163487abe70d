//! Laws of what is wrong with an input, over every input.

ghost use Rattle.snb_input_files.specs.Format.{Lawful, format_in};
ghost use Rattle.snb_input_files.specs.Laws.{OneRefusal, OneSaying, RefusedOrNot, StagesJoin};

use crate::file_sink::FileSink;
use snb_input_lines::Grammar;

/// A stage of an input has one refusal at most, and none where nothing is wrong. The format is lawful
/// (`lawful`).
pub fn one_refusal<G: Grammar, P: FileSink<G>>()
    requires lawful { (begun : P) → Lawful (format_in G.language P.stage begun) }
    ensures one { (begun : P) → OneRefusal (format_in G.language P.stage begun) }
    ensures or_not { (begun : P) → RefusedOrNot (format_in G.language P.stage begun) }
{}

/// The data lines of a file say one list of items at most. The format is lawful (`lawful`).
pub fn one_saying<G: Grammar, P: FileSink<G>>()
    requires lawful { (begun : P) → Lawful (format_in G.language P.stage begun) }
    ensures { (begun : P) → OneSaying (format_in G.language P.stage begun) }
{}

/// What two stages found is what one folder holds, where the kinds of files of one come before those
/// of the other. So the refusals of an input are those of its stages, one stage after the other, also
/// over a shelf that doesn't tell what it holds.
pub fn stages_join()
    ensures { StagesJoin }
{}
