//! Laws of the definitions, over every text.

ghost use Rattle.snb_input_lines.specs.Laws.{CutAnywhere, EndJoins, IsExact, LinesAreWhole, LinesHaveNoEnd, PiecesJoin, ReadsOnce};

use crate::grammar::Grammar;

/// The lines of a file are those that are ended, and what follows the last end where it has a byte.
pub fn lines_are_whole()
    ensures { LinesAreWhole }
{}

/// Where a text is cut makes no difference: what follows the last end of the front is joined to the
/// back.
pub fn cut_anywhere()
    ensures { CutAnywhere }
{}

/// What a reader is fed in two pieces says what both say in one: their items follow one another, a
/// refusal in the second is the refusal of both, and one in the first stands whatever follows.
pub fn pieces_join<G: Grammar>()
    ensures { (grammar : G) → PiecesJoin (G.language grammar) }
{}

/// What a reader was fed and the last line that it takes at the end say what the lines of the whole
/// file say.
pub fn end_joins<G: Grammar>()
    ensures { (grammar : G) → EndJoins (G.language grammar) }
{}

/// The lines of a file have no line end.
pub fn lines_have_no_end()
    ensures { LinesHaveNoEnd }
{}

/// Where a line says one thing at most, lines are read in one way at most, and lines that are read are
/// not stopped.
pub fn one_reading<G: Grammar>()
    ensures { (grammar : G) → IsExact (G.language grammar) → ReadsOnce (G.language grammar) }
{}
