//! The fields of a line, read by columns: what each spells, and the first that spells nothing; the reads
//! that they make; and the line of values, written from them.
#![tactic(auto)]

mod field_reader;
mod fields;
mod law;
mod lists;
mod query;
mod wide;
mod write;

pub use field_reader::FieldReader;
pub use fields::{Fields, LineFields};
pub use law::{one_value, spelled_or_not};
pub use query::{parameters_of, read_query};
pub use wide::{COLUMNS_END, is_wide};
pub use write::{Cell, put_fields, put_line};
