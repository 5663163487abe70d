//! The eight inserts, applied to a graph.
#![tactic(auto)]

mod applied;
mod applying;
mod law;
mod missing;
mod rows;
mod taken;

pub use applied::Applied;
pub use applying::{apply, apply_welcome};
pub use law::inserts_are_kept;
pub use rows::{first_row, rows_of};
