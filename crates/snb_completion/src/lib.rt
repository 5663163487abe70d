//! The completion time of a run, kept while its operations start and finish.
#![tactic(auto)]

mod law;
mod times;

pub use law::times_decide;
pub use times::Times;
