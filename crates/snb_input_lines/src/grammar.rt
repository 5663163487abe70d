//! What the lines of a file say.

ghost use Rattle.std.specs.Prelude.{◌≡◌, IfOk, Option};
ghost use Rattle.snb_schema.specs.Faults.{OnBadColumn};
ghost use Rattle.snb_input_lines.specs.Language.{IsTextLine, Language};

use crate::record::Record;
use snb_schema::LineFault;

/// What the lines of one file say: whether the first line with a byte is a header and what that says,
/// and which item each other line with a byte spells.
pub trait Grammar {
    /// What a data line spells.
    type Item: Drop;

    /// What the header says.
    type Known: Drop;

    /// What lines say.
    ghost language: { Self → Language Self.Known Self.Item };

    /// What is known before the first line; `None` where a header is due.
    fn begin(&self) -> Option<Self::Known>
        ensures { result ≡ (language self.now).begins };

    /// Whether lines are split at their bars.
    fn splits(&self) -> bool
        ensures { result ≡ (language self.now).splits };

    /// What the header says. The error is its bad column, or want of memory.
    ///
    /// The fields are those of the line, where lines are split.
    fn read_header(&self, line: &[u8], fields: &Record) -> Result<Self::Known, LineFault>
        requires { IsTextLine (language self.now).splits line.now (fields.now) }
        ensures ok { IfOk result ((language self.now).heads line.now) }
        ensures bad { OnBadColumn result ((language self.now).bad_header line.now) };

    /// The item that the data line of this number spells, counted from 1, where the header said this.
    /// The error is its bad column, or want of memory.
    ///
    /// The fields are those of the line, where lines are split.
    fn read_item(
        &self,
        known: &Self::Known,
        number: u32,
        line: &[u8],
        fields: &Record,
    ) -> Result<Self::Item, LineFault>
        requires { IsTextLine (language self.now).splits line.now (fields.now) }
        ensures ok { IfOk result ((language self.now).spells known.now number line.now) }
        ensures bad { OnBadColumn result ((language self.now).bad_line known.now line.now) };
}
