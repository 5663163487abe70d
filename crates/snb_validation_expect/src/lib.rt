//! The cases of a plan over a graph, as the text of a file of cases, with a law of them.
#![tactic(auto)]

mod counts;
mod expect;
mod law;
mod lines;
mod params;

pub use counts::count_line;
pub use expect::expect_via;
pub use law::expected_cases_are_right;
