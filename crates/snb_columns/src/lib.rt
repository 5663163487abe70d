//! Laws of the fields of lines and of the values that they spell in their columns.
#![tactic(auto)]

mod law;

pub use law::{own_line, plain_fields};
