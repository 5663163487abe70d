//! The calls of a script on handlers that answer from the graph, on what takes inserts, and on copies. `answer` makes a
//! call.
#![tactic(auto)]

mod answers;
mod applied;
mod cases;
mod connector;
mod steps;
mod summaries;
mod told;
mod walks;

pub use answers::answer;
