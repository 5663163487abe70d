//! Distances between persons over friendships.
#![tactic(auto)]

mod few;
mod ids;
mod leveled;
mod levels;
mod near;
mod reach;
mod sides;

pub use near::Near;
pub use reach::{distances, ic13, listed, shortest, within};
