//! What the audit of a log finds.

ghost use Rattle.std.specs.Prelude.{◌≡◌};
ghost use Rattle.snb_audit_model.specs.AuditVerdicts.{is_whole};

use crate::miscount::Miscount;
use snb_auditor::Verdict;

/// The verdict on a log: the first of these that applies. But a history that breaks a rule is judged
/// before its counts are looked at.
#[derive(Clone, Copy)]
pub enum AuditVerdict {
    /// The header has a count of operations that isn't the plan's.
    Mismatched {
        /// How many operations the plan has.
        needs: u32,
        /// How many the header says.
        found: u32,
    },
    /// The history is legal, and this is its first Finish with a count of rows that is wrong.
    Miscounted {
        miscount: Miscount,
    },
    /// The verdict on the history.
    Judged {
        verdict: Verdict,
    },
}

impl AuditVerdict {
    /// Whether the run is accepted, or late: its history is legal and complete, and no count is wrong.
    pub fn is_whole(self) -> bool
        ensures { result ≡ is_whole self }
    {
        match self {
            AuditVerdict::Mismatched { .. } | AuditVerdict::Miscounted { .. } => false,
            AuditVerdict::Judged { verdict } => {
                matches!(verdict, Verdict::Accepted { .. } | Verdict::TooLate { .. })
            }
        }
    }
}
