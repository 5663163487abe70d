//! Whether two replies are one.
#![tactic(auto)]

mod same;

pub use same::same_reply;
