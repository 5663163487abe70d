//! The lines of the update streams: read out of their fields or out of one line, and written.
#![tactic(auto)]

mod files_law;
mod insert_lines;
mod kinds;
mod law;
mod line;
mod lines;
mod make;
mod order;
mod params;
mod text;
mod updates;

pub use files_law::{one_params_reading, one_stream_reading, params_files, stream_files};
pub use insert_lines::write_line;
pub use law::{one_bad_line, one_fault, one_insert, one_insert_of_fields, one_query, own_line};
pub use line::{ALL_INSERTS, FORUM_INSERTS, PERSON_INSERTS, read_insert, read_line};
pub use lines::StreamLines;
pub use order::InOrder;
pub use params::{Params, QueryLines, columns_of, read_parameters};
pub use text::fields_in;
pub use updates::{Updates, inserts_of};
