//! Laws of columns and lines, over every line.

ghost use Rattle.snb_columns.specs.Laws.{OneList, OneValue};
ghost use Rattle.snb_input_fields.specs.Laws.{EachIsSpelled, EachLineIsRead};

use snb_base::one_spelling;
use snb_dates::one_moment;

/// A text spells one value of a column at most.
pub fn one_value()
    ensures value { OneValue }
    ensures list { OneList }
{
    one_spelling();
    one_moment();
}

/// A text spells a value of a column or it spells none; so the fields of a line that has enough of
/// them spell a value of each column, or there is a first that spells none.
pub fn spelled_or_not()
    ensures value { EachIsSpelled }
    ensures line { EachLineIsRead }
{}
