//! What takes items.

ghost use Rattle.std.specs.Prelude.{◌≡◌, OnOk, OnErr};
ghost use Rattle.snb_schema.specs.Faults.{OnBad};
ghost use Rattle.snb_input_lines.specs.Sinks.{SinkMeaning};

use snb_schema::{Fault, FileId, Refusal};
use std::alloc::AllocError;

/// What takes the items of files, one after the other, and may refuse one by all that it was told
/// before.
pub trait Sink<T> {
    /// What it may be told, and what it does with what it is told.
    ghost meaning: { SinkMeaning Self T };

    /// Takes the next item of the file. The error is what it is refused for, or want of memory, and
    /// tells nothing.
    fn put(&mut self, file: FileId, item: T) -> Result<(), Fault>
        requires { meaning.fits item }
        ensures ok { OnOk result (meaning.takes self.old file item self.new) }
        ensures bad { OnBad result (meaning.refuses self.old file item) }
        ensures same { OnErr result (meaning.same self.old self.new) };

    /// What is refused where the file ends here, if anything is.
    fn at_end(&self, file: FileId) -> Option<Refusal>
        ensures { result ≡ meaning.ends self.now file };

    /// Goes on to a next file. The error is want of memory.
    fn next_file(&mut self) -> Result<(), AllocError>
        ensures { OnOk result (meaning.turns self.old self.new) };

    /// A state was told the same as itself.
    ghost same_self: { (s : Self) → meaning.same s s };
}
