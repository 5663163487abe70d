//! The rows of all tables in ten ordered maps.
#![tactic(auto)]

mod each;
mod entry;
mod insert;
mod links;
mod tables;
mod words;

pub use each::{LentRows, TableRows};
pub use entry::{Entry, RowName};
pub use insert::Insert;
pub use tables::Tables;
pub use words::Words;
