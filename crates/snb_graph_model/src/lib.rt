//! What a graph of all tables is, what is wrong with one, and its text: definitions, their laws and
//! worked facts of them.
#![tactic(auto)]

mod law;
mod order;
mod worked;

pub use law::{graphs_are_their_rows, new_rows_are_gained};
pub use order::tables_in_order;
pub use worked::{a_place_is_lacking, below_a_circle, network_rows};
