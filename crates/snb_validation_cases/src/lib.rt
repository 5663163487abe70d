//! The lines of a file of cases, by which the answers of a graph are checked: each is an insert, or a
//! read with the reply that is due, as one JSON object.
#![tactic(auto)]

mod case;
mod cells;
mod law;
mod lines;
mod members;
mod parameters;
mod read;
mod replies;
mod taken;
mod values;

pub use case::{Case, CaseAt, CaseFault};
pub use law::{one_case, one_case_line};
pub use lines::CaseLines;
pub use read::read_case;
