//! The command `audit`.

ghost use Rattle.std.specs.Prelude.{◌≡◌, true};
ghost use Rattle.snb_base.specs.Moments.{Moments};
ghost use Rattle.snb_base.specs.Reads.{IsShelfRead};
ghost use Rattle.snb_input_files.specs.Loading.{is_read_fault};
ghost use Rattle.snb_input_files.specs.Names.{Allows, IsNameIn};
ghost use Rattle.snb_tool_words.specs.declared.command.Command.TheVariants.{Audit};
ghost use Rattle.snb_tool_outcome.specs.Endings.{IsFinished};
ghost use Rattle.snb_tool_outcome.specs.PlanEndings.{IsJudgedAnswer};
ghost use Rattle.snb_tool_outcome.specs.Found.{Given};
ghost use Rattle.snb_tool_outcome.specs.Names.{IsNameOf, plan_series};

use snb_auditor_log::{audit_log, status_of, verdict_line};
use snb_base::Shelf;
use snb_input_files::Load;
use snb_ratio::Ratio;
use snb_replies::Replies;
use snb_schema::Frequencies;
use snb_tool_outcome::{Finished, Judged, load_input};
use std::alloc::Global;

/// Reads the tables, the streams and the parameter files of a folder, and a log, and judges the log by their
/// plan over their dataset. What answers the reads whose rows are counted is ready; the shelf may be asked for these
/// files (`allowed`) and for the log (`log`).
pub fn judge<S: Shelf, A: Replies>(
    alloc: Global,
    answers: &A,
    shelf: &mut S,
    folder: &str,
    log: &str,
    ratio: Ratio,
    frequencies: Frequencies,
) -> Result<Judged, Load>
    requires ready { A.ready answers.now }
    requires allowed { Allows (S.may shelf.old) (IsNameIn (plan_series frequencies) folder.now) }
    requires log { S.may shelf.old log.now ≡ true }
    ensures answer { IsJudgedAnswer (S.contents shelf.old) folder.now log.now ratio frequencies result }
    ensures read { IsShelfRead (is_read_fault result) S.Shelf shelf.old shelf.new }
{
    let input = load_input(alloc, shelf, folder, ratio, frequencies)?;
    let audited = audit_log(alloc, answers, shelf, &input.plan, &input.graph, log)?;
    let (_, plan) = input.into_parts();
    Ok(Judged { plan, audited })
}

/// Reads the tables, the streams and the parameter files of a folder, and a log, and judges the log by their
/// plan. What answers the reads whose rows are counted is ready; the shelf may be asked for these files and for the log
/// (`allowed`).
pub fn audit<S: Shelf, A: Replies>(
    alloc: Global,
    answers: &A,
    shelf: &mut S,
    folder: &str,
    log: &str,
    ratio: Ratio,
    frequencies: Frequencies,
) -> Result<Finished, Load>
    requires ready { A.ready answers.now }
    requires allowed { Allows (S.may shelf.old) (IsNameOf (Audit folder.now log.now ratio frequencies)) }
    ensures answer { (given : Given) (moments : Moments)
        → IsFinished (Audit folder.now log.now ratio frequencies) (S.contents shelf.old) given moments result }
    ensures read { IsShelfRead (is_read_fault result) S.Shelf shelf.old shelf.new }
{
    let judged = judge(alloc, answers, shelf, folder, log, ratio, frequencies)?;
    let verdict = judged.audited.verdict;
    let text = verdict_line(alloc, verdict)?;
    Ok(Finished::shown(alloc, text, status_of(verdict)))
}
