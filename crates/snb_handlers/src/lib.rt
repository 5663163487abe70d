//! A table of handlers, one for each kind of read of LDBC's Social Network Benchmark, Interactive workload v1: what
//! answers the reads in place of the graph's own, as a connector to a database does.
#![tactic(auto)]

mod handler;
mod handlers;
mod table;

pub use handler::{Call, Handler};
pub use handlers::Handlers;
pub use snb_schema::READ_KINDS as KINDS;
pub use table::Register;
