//! The complex reads of persons, of LDBC's Social Network Benchmark, Interactive workload v1.
#![tactic(auto)]

mod jobs;
mod namesakes;
mod places;
mod scan;

pub use jobs::ic11;
pub use namesakes::ic1;
