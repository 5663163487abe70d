//! Ordered maps in two parts: a frozen one, in sorted arrays that copies share, and an added one.
#![tactic(auto)]

mod added;
mod hints;
mod kept;
mod layer;
mod layered_map;
mod pending;
mod search;
mod sorted;
mod walk;

pub use hints::{REACH, first_slot, leave, slots_for};
pub use kept::Apart;
pub use layer::Layer;
pub use layered_map::LayeredMap;
pub use walk::Walk;
