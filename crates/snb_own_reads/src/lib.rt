//! The calls that ask reads, each by the graph's own reads: a run of a plan and its replicas, the count of rows, the
//! cases of a plan, and the check of cases.
#![tactic(auto)]

mod checker;
mod expected;
mod miscount;
mod replica;
mod run;

pub use checker::{OwnChecker, check_cases};
pub use expected::expect;
pub use miscount::first_miscount;
pub use replica::OwnReplica;
pub use run::{run_alone, run_workers, work};
