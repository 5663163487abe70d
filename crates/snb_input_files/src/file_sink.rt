//! What takes the items of the files of one stage of an input.

ghost use Rattle.std.specs.Prelude.{◌≡◌};
ghost use Rattle.snb_input_files.specs.Format.{Stage};

use snb_input_lines::{Grammar, Sink};
use snb_schema::FileId;

/// A sink of the items of the files of one stage, file after file, which says by which grammar each
/// file is read, and what its items are refused for.
///
/// What a sink does with an item is said from state to state. Here it is also said by what it was told.
/// That both agree is `AreTakers`, which whoever calls with a sink shows. What the items are refused for may
/// depend on the state in which the first file was begun, as on the graph of a dataset.
pub trait FileSink<G: Grammar>: Sink<G::Item> {
    /// By which grammar each file is read, what its items are refused for, and what a state was told.
    ghost stage: { Stage Self G G.Item };

    /// The grammar of a file.
    fn grammar(&self, file: FileId) -> G
        ensures { result ≡ stage.grammar_of file };

    /// How many data lines all files of the input may have together, where there is a limit.
    fn most(&self) -> Option<u64>
        ensures { result ≡ stage.limit };
}
