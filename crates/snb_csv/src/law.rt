//! Laws of the tables' lines, over every line.

ghost use Rattle.snb_schema.specs.TableRows.{TableRowsAreOfLines};
ghost use Rattle.snb_csv.specs.Laws.{OneColumn, OneRow, OwnRowLine, RowOrColumn, RowsAreRight, RowsOfFieldsFit};

use snb_columns::{own_line as own_line_of_values, plain_fields};
use snb_input_fields::{one_value, spelled_or_not};

/// The fields of a line spell one row of a table at most.
pub fn one_row()
    ensures { OneRow }
{
    one_value();
}

/// The canonical line of a row that some line spells, as `write_row` writes it, is one line, and
/// spells that row and no other. So reading a line and writing its row gives the canonical line, and
/// doing so twice gives the same.
pub fn own_line()
    ensures { OwnRowLine }
{
    one_value();
    own_line_of_values();
    plain_fields();
}

/// The fields of a line spell a row of a table, or they have a bad column. Not both; and they have
/// only one bad column.
pub fn one_column()
    ensures some { RowOrColumn }
    ensures right { RowsAreRight }
    ensures one { OneColumn }
{
    spelled_or_not();
}

/// A row is one that its table can have exactly where some line of the table is its line.
pub fn table_rows_are_of_lines()
    ensures { TableRowsAreOfLines }
{
    own_line_of_values();
    plain_fields();
}

/// A row that fields without bars and line ends spell is one that its table can have.
pub fn rows_of_fields_fit()
    ensures { RowsOfFieldsFit }
{}
