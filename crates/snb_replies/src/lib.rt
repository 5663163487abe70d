//! What answers the reads of LDBC's Social Network Benchmark, Interactive workload v1: the graph's own reads, or a
//! table of handlers. Whoever asks names neither.
#![tactic(auto)]

mod replies;

pub use replies::Replies;
