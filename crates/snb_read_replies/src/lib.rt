//! Replies to the reads of LDBC's Social Network Benchmark, Interactive workload v1: a query's answer, and
//! the answers of the short reads that follow it.
#![tactic(auto)]

mod reply;

pub use reply::{OwnReads, answer, own_answer};
