//! Laws of inserts.

ghost use Rattle.snb_inserts.specs.Laws.{HeldIsKept, MessagesAreAlone, RowsAreNew, RowsFit, SoundIsKept};

use snb_columns::plain_fields;

/// The rows of an insert that has a line fit their tables. Where all that it refers to is held and
/// its key is new, they are new too, no edge leads from a message among them, and a graph whose references
/// are held, or that is sound, stays so with them.
pub fn inserts_are_kept()
    ensures fit { RowsFit }
    ensures new { RowsAreNew }
    ensures alone { MessagesAreAlone }
    ensures held { HeldIsKept }
    ensures sound { SoundIsKept }
{
    plain_fields();
}
