//! The audit of a log.

ghost use Rattle.std.specs.Prelude.{◌≡◌, ◌≤◌, All, IfOk, true};
ghost use Rattle.snb_base.specs.Reads.{IsShelfRead};
ghost use Rattle.snb_schema.specs.declared.limits.TheConstants.{MAX_AT, MAX_WORKERS};
ghost use Rattle.snb_history.specs.History.{moment};
ghost use Rattle.snb_input_files.specs.Loading.{is_read_fault};
ghost use Rattle.snb_auditor.specs.Verdicts.{IsVerdict};
ghost use Rattle.snb_plan.specs.Closed.{IsClosed};
ghost use Rattle.snb_plan.specs.Plans.{schedule_of, updates_in};
ghost use Rattle.snb_graph_model.specs.Graphs.{HoldsKey};
ghost use Rattle.snb_graph_model.specs.Soundness.{Sound};
ghost use Rattle.snb_audit_model.specs.Miscounts.{events_of};
ghost use Rattle.snb_audit_model.specs.Audited.{IsAuditAnswer};
ghost use Rattle.snb_audit_model.specs.AuditVerdicts.{IsAuditVerdict, IsMatched};
ghost use Rattle.snb_audit_model.specs.LogFiles.{IsAuditable};

use crate::log::load_log;
use snb_audit_model::{AuditVerdict, Audited, Log};
use snb_auditor::{Auditor, Verdict};
use snb_base::Shelf;
use snb_graph::Graph;
use snb_history::{Logged, Schedule};
use snb_input_files::Load;
use snb_miscount::first_miscount_via;
use snb_plan::Plan;
use snb_replies::Replies;
use std::alloc::{AllocError, Global};

// The verdict on the history of what is logged.
fn judge(
    alloc: Global,
    schedule: &Schedule,
    workers: u32,
    logged: &[Logged],
) -> Result<Verdict, AllocError>
    requires some { 1 ≤ workers }
    requires few { workers ≤ MAX_WORKERS }
    requires timed { All (λ l. moment l.event ≤ MAX_AT) logged.now }
    ensures { IfOk result (λ verdict. IsVerdict schedule.now workers (events_of logged.now) verdict) }
{
    let mut auditor = Auditor::new(alloc, schedule, workers)?;
    for one in logged {
        if let Err(_) = auditor.step(&one.event) {
            return Ok(auditor.end());
        }
    }
    Ok(auditor.end())
}

// The verdict on a log whose history has this one and whose count of operations is the plan's, where it has
// one.
fn after_judging<A: Replies>(
    alloc: Global,
    answers: &A,
    plan: &Plan,
    base: &Graph,
    log: &Log,
    verdict: Verdict,
) -> Result<AuditVerdict, AllocError>
    requires ready { A.ready answers.now }
    requires auditable { IsAuditable log.now }
    requires sound { Sound base.now }
    requires closed { IsClosed (HoldsKey base.now) (updates_in plan.now) }
    requires matched { IsMatched plan.now log.now.header }
    requires judged { IsVerdict (schedule_of plan.now) log.now.header.workers (events_of log.now.logged.items) verdict }
    ensures { IfOk result (λ found. IsAuditVerdict base.now plan.now log.now.header log.now.logged.items found) }
{
    let judged = AuditVerdict::Judged { verdict };
    if let Verdict::Violated { .. } = verdict {
        return Ok(judged);
    }
    // A log of version 1 has no counts.
    if log.header.operations.is_none() {
        return Ok(judged);
    }
    match first_miscount_via(alloc, answers, plan, base, &log.logged)? {
        Some(miscount) => Ok(AuditVerdict::Miscounted { miscount }),
        None => Ok(judged),
    }
}

// The verdict on a log.
fn verdict_on<A: Replies>(
    alloc: Global,
    answers: &A,
    plan: &Plan,
    base: &Graph,
    log: &Log,
) -> Result<AuditVerdict, AllocError>
    requires ready { A.ready answers.now }
    requires auditable { IsAuditable log.now }
    requires sound { Sound base.now }
    requires closed { IsClosed (HoldsKey base.now) (updates_in plan.now) }
    ensures { IfOk result (λ found. IsAuditVerdict base.now plan.now log.now.header log.now.logged.items found) }
{
    let needs = plan.schedule().steps().len() as u32;
    if let Some(found) = log.header.operations {
        if found != needs {
            return Ok(AuditVerdict::Mismatched { needs, found });
        }
    }
    let verdict = judge(alloc, plan.schedule(), log.header.workers, &log.logged)?;
    after_judging(alloc, answers, plan, base, log, verdict)
}

/// What the log of this path says, of version 1 or 2, and the verdict on it by a plan that is closed over a sound
/// dataset. The whole log is read before any verdict: with a log that is refused there is none. A log of version 2 is
/// judged by its counts too: that of operations comes before anything else, and those of rows are looked at
/// where the history is legal, by what answers reads, which is ready. The errors are those of `load_log`. The shelf
/// may be asked for the path (`allowed`).
pub fn audit_log<S: Shelf, A: Replies>(
    alloc: Global,
    answers: &A,
    shelf: &mut S,
    plan: &Plan,
    base: &Graph,
    path: &str,
) -> Result<Audited, Load>
    requires ready { A.ready answers.now }
    requires sound { Sound base.now }
    requires closed { IsClosed (HoldsKey base.now) (updates_in plan.now) }
    requires allowed { S.may shelf.old path.now ≡ true }
    ensures answer { IsAuditAnswer base.now plan.now (S.contents shelf.old) path.now result }
    ensures read { IsShelfRead (is_read_fault result) S.Shelf shelf.old shelf.new }
{
    let log = load_log(alloc, shelf, path)?;
    let verdict = verdict_on(alloc, answers, plan, base, &log)?;
    Ok(Audited { log, verdict })
}
