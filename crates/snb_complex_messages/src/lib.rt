//! The complex reads of messages, of LDBC's Social Network Benchmark, Interactive workload v1.
#![tactic(auto)]

mod answered;
mod liked;
mod sent;

pub use answered::ic8;
pub use liked::ic7;
pub use sent::{ic2, ic9};
