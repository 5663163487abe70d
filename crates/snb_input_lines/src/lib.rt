//! Lines out of the pieces of a file: one reader for files of every kind. What the lines say is a
//! grammar's, and what takes that is a sink.
#![tactic(auto)]

mod counted;
mod ended;
mod grammar;
mod law;
mod line_reader;
mod lists;
mod open;
mod progress;
mod record;
mod sink;
mod split;

pub use counted::RowCount;
pub use grammar::Grammar;
pub use law::{
    cut_anywhere, end_joins, lines_are_whole, lines_have_no_end, one_reading, pieces_join,
};
pub use line_reader::LineReader;
pub use open::Open;
pub use record::Record;
pub use sink::Sink;
pub use split::{cut_at_end, is_marked, split_line};
