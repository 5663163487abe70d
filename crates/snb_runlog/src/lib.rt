//! The log of a run as text, both ways and in each of its versions: one table of columns, by which lines
//! are written and read.
#![tactic(auto)]

mod columns;
mod grammar;
mod law;
mod reader;
mod write;

pub use columns::{
    Column, EventKind, FIRST_VERSION, LAST_VERSION, MAX_NUMBER, VERSION, columns_of, has_counts,
    header_columns_of,
};
pub use grammar::LogLines;
pub use law::{
    counts_are_in_version_2, event_or_column, log_is_exact, log_is_of_one_history, log_limits,
    log_reads_back, one_event, own_line,
};
pub use reader::LogReader;
pub use write::{write_header, write_lines, write_log};
