//! Ratios of a run's time to a schedule's, and when what is planned is due; chances that fall. All are counted in
//! millionths.
#![tactic(auto)]

mod chance;
mod law;
mod ratio;

pub use chance::{CERTAIN, Chance};
pub use law::{due_rises, one_chance, one_ratio};
pub use ratio::{MOST_MILLIONTHS, MOST_UNITS, Ratio};
