//! What the audit of a log finds, as definitions and types: what a log says, the first count that isn't right, and the
//! verdict.
#![tactic(auto)]

mod audited;
mod log;
mod miscount;
mod verdict;

pub use audited::Audited;
pub use log::Log;
pub use miscount::Miscount;
pub use verdict::AuditVerdict;
