//! Ordered maps: rows of one part of a graph, seen as the rows, and pairs of ids with dates.
#![tactic(auto)]

mod index;
mod kept;
mod keys;
mod nodes;
mod row_map;
mod rows;
mod shown;

pub use index::Index;
pub use kept::{Exact, Kept, Key};
pub use keys::{EdgeKey, WordKey};
pub use nodes::{Class, Mark};
pub use row_map::RowMap;
pub use rows::{MappedRows, Shown};
