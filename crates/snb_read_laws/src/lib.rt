//! That each read of LDBC's Social Network Benchmark, Interactive workload v1, has one reply, and what stands in it.
#![tactic(auto)]

mod law;

pub use law::{answers_have_columns, one_reply, some_reply};
