//! The graph: its rows, and what is walked along.
#![tactic(auto)]

mod additions;
mod graph;
mod walk;

pub use graph::Graph;
pub use walk::Links;
