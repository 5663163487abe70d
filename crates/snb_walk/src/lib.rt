//! Walks of short reads that follow the answer of a read of LDBC's Social Network Benchmark, Interactive workload v1,
//! with a falling chance, over words that are handed in.
#![tactic(auto)]

mod law;
mod policy;
mod reading;
mod target;
mod targets;
mod trace;
mod walking;

pub use law::{there_is_one_walk, walks_are_lawful};
pub use policy::{Call, Policy};
pub use snb_ratio::Chance;
pub use target::{Pick, Stop, Target};
pub use trace::{Steps, Trace};
pub use walking::walk;
