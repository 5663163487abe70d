//! What is shown of a verdict.

ghost use Rattle.std.specs.Prelude.{◌≡◌, IfOk, string_bytes};
ghost use Rattle.std.specs.Fmt.{signed_decimal};
ghost use Rattle.snb_audit_model.specs.VerdictTexts.{audit_status, audit_text, verdict_status, verdict_text};

use snb_audit_model::AuditVerdict;
use snb_auditor::Verdict;
use std::alloc::{AllocError, Global};

// The decimal digits of a number, with a sign where it is below zero.
fn signed_text(alloc: Global, number: &i64) -> Result<String, AllocError>
    ensures { IfOk result (λ text. string_bytes text ≡ signed_decimal number.now) }
{
    number.to_string(alloc)
}

// The line of a verdict on a history.
fn history_line(alloc: Global, verdict: Verdict) -> Result<Vec<u8>, AllocError>
    ensures { IfOk result (λ text. text.items ≡ verdict_text verdict) }
{
    match verdict {
        Verdict::Violated { violation } => {
            let event = violation.event;
            let rule = violation.rule;
            let needs = signed_text(alloc, &violation.needs)?;
            let found = signed_text(alloc, &violation.found)?;
            let line = format!(in alloc;
                "violated event {event} rule V{rule} needs {needs} found {found}\n"
            )?;
            Ok(line.into_bytes())
        }
        Verdict::Halted { worker } => Ok(format!(in alloc;
            "halted worker {worker}\n"
        )?.into_bytes()),
        Verdict::Incomplete { op } => {
            Ok(format!(in alloc; "incomplete operation {op}\n")?.into_bytes())
        }
        Verdict::TooLate { on_time, all } => {
            Ok(format!(in alloc; "late {on_time} of {all}\n")?.into_bytes())
        }
        Verdict::Accepted { on_time, all } => {
            Ok(format!(in alloc; "accepted {on_time} of {all}\n")?.into_bytes())
        }
    }
}

/// The line of a verdict on a log.
pub fn verdict_line(alloc: Global, verdict: AuditVerdict) -> Result<Vec<u8>, AllocError>
    ensures { IfOk result (λ text. text.items ≡ audit_text verdict) }
{
    match verdict {
        AuditVerdict::Mismatched { needs, found } => Ok(format!(in alloc;
            "mismatched operations needs {needs} found {found}\n"
        )?.into_bytes()),
        AuditVerdict::Miscounted { miscount } => {
            let event = miscount.event;
            let needs = miscount.needs;
            let found = miscount.found;
            let line = format!(in alloc; "miscounted event {event} needs {needs} found {found}\n")?;
            Ok(line.into_bytes())
        }
        AuditVerdict::Judged { verdict } => history_line(alloc, verdict),
    }
}

// The status of a verdict on a history: 0 where the run is accepted, else 1.
fn history_status(verdict: Verdict) -> u8
    ensures { result ≡ verdict_status verdict }
{
    match verdict {
        Verdict::Accepted { .. } => 0,
        Verdict::Violated { .. }
        | Verdict::Halted { .. }
        | Verdict::Incomplete { .. }
        | Verdict::TooLate { .. } => 1,
    }
}

/// The status of a verdict on a log: 0 where the run is accepted, else 1.
pub fn status_of(verdict: AuditVerdict) -> u8
    ensures { result ≡ audit_status verdict }
{
    match verdict {
        AuditVerdict::Mismatched { .. } | AuditVerdict::Miscounted { .. } => 1,
        AuditVerdict::Judged { verdict } => history_status(verdict),
    }
}
