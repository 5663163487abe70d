//! The commands that run a plan or judge a log by it: `run`, `trial`, `audit` and `latency`. What answers their reads
//! is handed in.
#![tactic(auto)]

mod audit_command;
mod latency_command;
mod run_command;
mod trial_command;
mod waiting;

pub use audit_command::{audit, judge};
pub use latency_command::latency;
pub use run_command::{run, run_output};
pub use trial_command::trial;
pub use waiting::obey_waiting;
