//! Laws of columns and lines, over every line.

ghost use Rattle.std.specs.Prelude.{ℕ, List};
ghost use Rattle.snb_columns.specs.Laws.{HasPlainFields, OwnLineOfValues};

use snb_base::one_spelling;

/// The fields of a line have no bar, and are texts without line ends where the line is one.
pub fn plain_fields()
    ensures { (line : List ℕ) → HasPlainFields line }
{}

/// What is read can be written: values that fields spell have a line of their own, which spells
/// them.
pub fn own_line()
    ensures { OwnLineOfValues }
{
    one_spelling();
}
