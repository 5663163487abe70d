//! Whether the graph of the tables is sound, and what is wrong first with one that isn't.
#![tactic(auto)]

mod chains;
mod counts;
mod edges;
mod law;
mod mark;
mod rising;
mod soundness;
mod unsound;

pub use law::{one_outcome, sound_graphs};
pub use soundness::sound;
pub use unsound::Unsound;
