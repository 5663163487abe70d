//! The rows of the tables: read out of the pieces of a file, and written as lines.
#![tactic(auto)]

mod files_law;
mod law;
mod make;
mod read;
mod rows;
mod write;

pub use files_law::{one_table_reading, table_files};
pub use law::{one_column, one_row, own_line, rows_of_fields_fit, table_rows_are_of_lines};
pub use read::read_row;
pub use rows::{Rows, TableLines};
pub use write::{write_lent, write_row};
