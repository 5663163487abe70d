//! Checks the cases of a validation file against a graph: whether each reply that a case has is the
//! one that the graph gives, after the inserts of the cases before it.
#![tactic(auto)]

mod checker;
mod file;
mod law;
mod text;

pub use checker::{Checker, StepFault};
pub use file::check_cases_via;
pub use law::{one_cases_refusal, right_on_each_graph};
pub use snb_validation_model::{Difference, Tally};
pub use text::{status_of, tally_lines};
