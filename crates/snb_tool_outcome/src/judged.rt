//! A log that is judged.

use snb_audit_model::Audited;
use snb_plan::Plan;

/// The plan of the files of a folder, and a log with the verdict on it.
pub struct Judged {
    pub plan: Plan,
    pub audited: Audited,
}

impl Drop for Judged {
    fn drop(self) {
        let Judged {
            plan: _,
            audited: _,
        } = self;
    }
}
