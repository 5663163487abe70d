//! Runs of a plan: workers claim its operations at a board, do them and finish them, each with a replica of the
//! graph.
#![tactic(auto)]

mod counts;
mod crew;
mod law;
mod run;
mod threads;
mod work;

pub use counts::Counts;
pub use law::{counts_of_a_run, finishes_are_of_operations, one_entry, one_moment};
pub use run::run_alone_via;
pub use snb_replica::{Events, Outcome};
pub use threads::run_workers_via;
pub use work::{Served, work_via};
