//! The audit of a log: it is read from a shelf, and its history and its counts get a verdict.
#![tactic(auto)]

mod audit;
mod file_sink;
mod law;
mod log;
mod verdict_text;

pub use audit::audit_log;
pub use law::{
    accepted_in_order, audit_verdict_is_one, one_log_refusal, said_log_is_clean, whole_exactly,
};
pub use log::load_log;
pub use snb_audit_model::{AuditVerdict, Audited, Log};
pub use verdict_text::{status_of, verdict_line};
