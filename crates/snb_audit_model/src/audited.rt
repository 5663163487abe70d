//! What the audit of a log answers.

use crate::log::Log;
use crate::verdict::AuditVerdict;

/// A log, and the verdict on it.
pub struct Audited {
    /// What the log says.
    pub log: Log,
    pub verdict: AuditVerdict,
}

impl Drop for Audited {
    fn drop(self) {
        let Audited { log: _, verdict: _ } = self;
    }
}
