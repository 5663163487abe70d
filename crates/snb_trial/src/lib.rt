//! The input of a formula workload, of any size, which reads no file.
#![tactic(auto)]

mod dataset;
mod entries;
mod lanes;
mod law;
mod lists;
mod terms;
mod trial;

pub use law::{lanes_are_of_streams, lists_are_enough, seven_updates, updates_are_closed};
pub use terms::{trial_frequencies, trial_ratio};
pub use trial::trial_input;
