//! What the reads of LDBC's Social Network Benchmark look up in a graph.
#![tactic(auto)]

mod lookups;

pub use lookups::{are_friends, author_id, city, collected, forum, known, moderator, shown, words};
