//! What a file of cases is refused for over a graph, what is found over it, and the cases of a plan, as definitions and
//! types.
#![tactic(auto)]

mod difference;
mod tally;

pub use difference::Difference;
pub use tally::Tally;
