//! The calls of a script on the files of a dataset: where they are cut and how much of them may be read, on the
//! frozen and the added rows of a graph, and on the distances between persons. `answer` makes a call.
#![tactic(auto)]

mod answers;
mod dataset;
mod distances;
mod graphs;
mod limits;
mod loaded;
mod posts;
mod state;

pub use answers::answer;
pub use state::State;
