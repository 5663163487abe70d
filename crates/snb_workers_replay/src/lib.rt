//! What a graph is after a history of a plan.
#![tactic(auto)]

mod law;
mod worked;

pub use law::{order_is_welcome, replay_is_welcome, runs_wait};
pub use worked::one_person_is_inserted;
