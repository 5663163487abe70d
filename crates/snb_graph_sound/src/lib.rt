//! Whether a graph is sound.
#![tactic(auto)]

mod soundness;

pub use soundness::Soundness;
