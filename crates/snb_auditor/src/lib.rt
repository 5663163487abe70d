//! An auditor of runs: it is told the events of a history one by one, and gives a verdict.
#![tactic(auto)]

mod auditor;
mod law;
mod verdict;

pub use auditor::{Auditor, audit_all};
pub use law::{accepted_exactly, verdict_exists, verdict_is_one};
pub use verdict::{Verdict, Violation};
