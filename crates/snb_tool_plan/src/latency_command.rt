//! The command `latency`.

ghost use Rattle.std.specs.Prelude.{◌≡◌, ℕ, IfOk};
ghost use Rattle.snb_base.specs.Moments.{Moments};
ghost use Rattle.snb_base.specs.Reads.{IsShelfRead};
ghost use Rattle.snb_history.specs.Rules.{IsComplete, IsLegal};
ghost use Rattle.snb_input_files.specs.Loading.{is_read_fault};
ghost use Rattle.snb_input_files.specs.Names.{Allows};
ghost use Rattle.snb_plan.specs.Plans.{schedule_of};
ghost use Rattle.snb_tool_words.specs.declared.command.Command.TheVariants.{Latency};
ghost use Rattle.snb_audit_model.specs.Miscounts.{events_of};
ghost use Rattle.snb_tool_outcome.specs.Endings.{IsFinished};
ghost use Rattle.snb_tool_outcome.specs.Found.{Given};
ghost use Rattle.snb_tool_outcome.specs.Names.{IsNameOf};
ghost use Rattle.snb_tool_outcome.specs.LogsDone.{ShowsSummary};
ghost use Rattle.snb_tool_outcome.specs.Output.{on_screen};

use crate::audit_command::judge;
use snb_auditor_log::{verdict_line, whole_exactly};
use snb_base::Shelf;
use snb_history::{Event, Logged};
use snb_input_files::Load;
use snb_plan::Plan;
use snb_ratio::Ratio;
use snb_replies::Replies;
use snb_schema::Frequencies;
use snb_summary::{measures_text, summarise};
use snb_tool_outcome::Finished;
use std::alloc::{AllocError, Global};

// The events of what is logged.
fn events_of(alloc: Global, logged: &[Logged]) -> Result<Vec<Event>, AllocError>
    ensures { IfOk result (λ events. events.items ≡ events_of logged.now) }
{
    logged.iter().map(|one| one.event).collect(alloc)
}

// The text of the summary of a run.
fn summary_of(alloc: Global, plan: &Plan, logged: &[Logged]) -> Result<Vec<u8>, AllocError>
    requires legal { (workers : ℕ) × IsLegal (schedule_of plan.now) workers (events_of logged.now) }
    requires complete { IsComplete (schedule_of plan.now) (events_of logged.now) }
    ensures { IfOk result (λ text. ShowsSummary plan.now (events_of logged.now) (on_screen text.items)) }
{
    let events = events_of(alloc, logged)?;
    let summary = summarise(alloc, plan, &events)?;
    let mut text = Vec::new(alloc);
    measures_text(&summary, &mut text)?;
    Ok(text)
}

/// Reads what `audit` reads, and judges the log. Where the run is accepted or late, makes the summary of its
/// latencies, and else says what `audit` says, with status 1. What answers reads is ready, and the shelf may be asked
/// for what `audit` asks for (`allowed`).
pub fn latency<S: Shelf, A: Replies>(
    alloc: Global,
    answers: &A,
    shelf: &mut S,
    folder: &str,
    log: &str,
    ratio: Ratio,
    frequencies: Frequencies,
) -> Result<Finished, Load>
    requires ready { A.ready answers.now }
    requires allowed { Allows (S.may shelf.old) (IsNameOf (Latency folder.now log.now ratio frequencies)) }
    ensures answer { (given : Given) (moments : Moments)
        → IsFinished (Latency folder.now log.now ratio frequencies) (S.contents shelf.old) given moments result }
    ensures read { IsShelfRead (is_read_fault result) S.Shelf shelf.old shelf.new }
{
    whole_exactly();
    let judged = judge(alloc, answers, shelf, folder, log, ratio, frequencies)?;
    if judged.audited.verdict.is_whole() {
        let text = summary_of(alloc, &judged.plan, &judged.audited.log.logged)?;
        return Ok(Finished::shown(alloc, text, 0));
    }
    let text = verdict_line(alloc, judged.audited.verdict)?;
    Ok(Finished::shown(alloc, text, 1))
}
