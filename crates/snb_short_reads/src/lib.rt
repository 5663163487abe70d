//! The short reads of LDBC's Social Network Benchmark, Interactive workload v1.
#![tactic(auto)]

mod messages;
mod persons;
mod roots;

pub use messages::{is4, is5, is6, is7};
pub use persons::{is1, is2, is3};
