//! Laws of the files of tables, over every file.

ghost use Rattle.snb_csv.specs.FileLaws.{OneTableReading, TableFiles};

use crate::law::{one_column, one_row};

/// The rows that a table's file says are those of its data lines in order, each with the number of its
/// line; the first line with a byte is a header of the table.
pub fn table_files()
    ensures { TableFiles }
{}

/// The lines of a table's file say one list of rows at most, and where they say one none of them is
/// refused.
pub fn one_table_reading()
    ensures { OneTableReading }
{
    one_row();
    one_column();
}
