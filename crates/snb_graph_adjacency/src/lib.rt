//! The links that are walked along in a graph, kept beside its rows.
#![tactic(auto)]

mod indexes;
mod link;
mod link_delta;
mod whole;

pub use indexes::Indexes;
pub use link::{Link, LinkDelta, Walk};
pub use link_delta::{delta_of, lone_delta};
