//! A replica of the graph, which follows the history of a run, what is kept of the replies that it gives, and what a
//! run leaves.
#![tactic(auto)]

mod outcome;
mod replica;

pub use outcome::{Events, Outcome};
pub use replica::{Replica, ReplyText, count_first_rows, count_rows};
