//! Laws of the lines of update streams and parameter files, over every line.

ghost use Rattle.snb_streams.specs.Laws.{InsertOrColumn, InsertsAreRight, LineOrColumn, LinesAreRight, NoBadQuery, OneBadLine, OneBadQuery, OneFault, OneInsert, OneInsertOfFields, OneQuery, OwnInsertLine, QueryOrColumn};

use snb_columns::{own_line as own_fields, plain_fields};
use snb_input_fields::{one_value, spelled_or_not};

/// A text is the line of one insert at most, at one pair of times.
pub fn one_insert()
    ensures { OneInsert }
{
    one_value();
}

/// The fields of a line spell one insert of some kinds at most, at one pair of times.
pub fn one_insert_of_fields()
    ensures { OneInsertOfFields }
{
    one_value();
}

/// What is read can be written: the canonical line of an insert that has a line is one of its lines.
pub fn own_line()
    ensures { OwnInsertLine }
{
    plain_fields();
    own_fields();
}

/// Fields spell an insert of some kinds, or they have a bad column. Not both; and they have only one
/// bad column.
pub fn one_fault()
    ensures some { InsertOrColumn }
    ensures one { OneFault }
    ensures none { InsertsAreRight }
{
    spelled_or_not();
}

/// Each text is the line of an insert, or it has a bad column. Not both; and it has only one bad
/// column.
pub fn one_bad_line()
    ensures some { LineOrColumn }
    ensures one { OneBadLine }
    ensures none { LinesAreRight }
{
    one_fault();
}

/// Fields are the parameters of a query, or they have a bad column. Not both; and they are those of
/// one query of a number at most, or have only one bad column.
pub fn one_query()
    ensures some { QueryOrColumn }
    ensures one { OneQuery }
    ensures none { NoBadQuery }
    ensures bad { OneBadQuery }
{
    spelled_or_not();
    one_value();
}
