//! The counts of rows that a log states, and the first that isn't right.
#![tactic(auto)]

mod law;
mod miscount;
mod tally;

pub use law::one_count;
pub use miscount::first_miscount_via;
pub use snb_audit_model::Miscount;
