//! The command `run`.

ghost use Rattle.std.specs.Prelude.{◌≡◌, ◌≤◌, All, IfOk, length};
ghost use Rattle.snb_base.specs.Reads.{IsShelfRead};
ghost use Rattle.snb_input_files.specs.Loading.{is_read_fault};
ghost use Rattle.snb_input_files.specs.Names.{Allows};
ghost use Rattle.snb_plan.specs.Closed.{IsClosed};
ghost use Rattle.snb_plan.specs.Plans.{queries_in, schedule_of, updates_in};
ghost use Rattle.snb_history.specs.Rules.{IsLegal};
ghost use Rattle.snb_runlog.specs.declared.columns.TheConstants.{MAX_NUMBER as MOST};
ghost use Rattle.snb_replica.specs.Counts.{logged_of};
ghost use Rattle.snb_schema.specs.declared.limits.TheConstants.{MAX_WORKERS};
ghost use Rattle.snb_history.specs.RunTexts.{log_text};
ghost use Rattle.snb_schema.specs.ScreenTexts.{summary_text};
ghost use Rattle.snb_graph_model.specs.FinalText.{final_text};
ghost use Rattle.snb_graph_model.specs.Graphs.{HoldsKey};
ghost use Rattle.snb_graph_model.specs.Soundness.{Sound};
ghost use Rattle.snb_tool_words.specs.declared.command.Command.TheVariants.{Run};
ghost use Rattle.snb_tool_outcome.specs.Endings.{IsFinished, bytes_of};
ghost use Rattle.snb_tool_outcome.specs.PlanEndings.{AreTexts};
ghost use Rattle.snb_tool_outcome.specs.Found.{Given};
ghost use Rattle.snb_tool_outcome.specs.Names.{IsNameOf};
ghost use Rattle.snb_tool_outcome.specs.Runs.{LeavesTexts};

use snb_answered::{Answered, Done};
use snb_base::{Clock, Gate, Shelf};
use snb_graph::Graph;
use snb_history::{Event, Header, legal_is_short};
use snb_input_files::Load;
use snb_miscount::one_count;
use snb_plan::Plan;
use snb_ratio::Ratio;
use snb_replies::Replies;
use snb_runlog::{LAST_VERSION, MAX_NUMBER, log_reads_back, write_header, write_lines};
use snb_schema::Frequencies;
use snb_tool_outcome::{Finished, Input, Output, load_input};
use snb_tool_texts::{answer_pieces, final_lines, summary_lines};
use snb_workers::{Counts, Outcome, counts_of_a_run, finishes_are_of_operations, run_workers_via};
use std::alloc::{AllocError, Global};
use std::sync::Wait;
use std::thread::Threads;

// No count of rows is greater than one that a log can have.
fn known_counts(replies: &[Answered])
    ensures { All (λ a. a.rows ≤ MOST) replies.now }
{
    for one in replies {
        if u64::from(one.rows) > MAX_NUMBER {
            unreachable!();
        }
    }
}

// The log of a run of a plan by so many workers, whose events are let go.
fn log_of(
    alloc: Global,
    workers: u32,
    plan: &Plan,
    events: Vec<Event>,
    replies: &Done,
) -> Result<Vec<u8>, AllocError>
    requires some { 1 ≤ workers }
    requires few { workers ≤ MAX_WORKERS }
    requires legal { IsLegal (schedule_of plan.now) workers events.items }
    ensures { IfOk result
        (λ log. log.items ≡ log_text workers (length plan.now.operations) (logged_of replies.now events.items)) }
{
    finishes_are_of_operations();
    let operations = plan.schedule().steps().len();
    let counts = Counts::of(alloc, operations, replies)?;
    let header = Header {
        version: LAST_VERSION,
        workers,
        operations: Some(operations as u32),
    };
    let mut log = Vec::new(alloc);
    write_header(&header, &mut log)?;
    for event in &events {
        write_lines(&[counts.logged(event)], &mut log)?;
    }
    Ok(log)
}

// The summary of a run of a plan that leaves so many rows.
fn screen_of(alloc: Global, plan: &Plan, rows: u64) -> Result<Vec<u8>, AllocError>
    ensures { IfOk result
        (λ screen. screen.items ≡ summary_text (length plan.now.operations) (length (updates_in plan.now))
        (length (queries_in plan.now)) rows) }
{
    let operations = plan.schedule().steps().len() as u64;
    summary_lines(alloc, operations, plan.updates(), plan.reads(), rows)
}

// The text of the final graph, which is let go, and the summary.
fn graph_texts(alloc: Global, plan: &Plan, graph: Graph) -> Result<(Vec<u8>, Vec<u8>), AllocError>
    ensures { IfOk result (λ texts. (texts.0.items ≡ final_text graph)
        × (texts.1.items ≡ summary_text (length plan.now.operations) (length (updates_in plan.now))
        (length (queries_in plan.now)) (length graph))) }
{
    let finals = final_lines(alloc, &graph)?;
    let screen = screen_of(alloc, plan, graph.rows())?;
    Ok((finals, screen))
}

// The texts of a run by so many workers. The events and the graph are let go once their texts are made, and
// each reply once its line is.
fn texts_of(
    alloc: Global,
    workers: u32,
    plan: &Plan,
    outcome: Outcome,
) -> Result<Output, AllocError>
    requires some { 1 ≤ workers }
    requires few { workers ≤ MAX_WORKERS }
    requires legal { IsLegal (schedule_of plan.now) workers outcome.events }
    ensures { IfOk result (λ output. AreTexts workers plan.now outcome (bytes_of output)) }
{
    let (events, replies, graph) = outcome.into_parts();
    let log = log_of(alloc, workers, plan, events.into_vec(), &replies)?;
    let (finals, screen) = graph_texts(alloc, plan, graph)?;
    // The answers last: the short texts of the replies are let go meanwhile, and the long ones are handed on.
    let answers = answer_pieces(alloc, replies)?;
    Ok(Output {
        log,
        answers,
        finals,
        cases: Vec::new(alloc),
        screen,
    })
}

/// Runs the plan by so many workers, 1 to 8, and makes the texts of the run. What answers its reads is ready, the
/// dataset is sound, and the plan is closed over it.
pub fn run_output<R: Threads + Wait + Sync, A: Replies + Sync, C: Clock + Sync, G: Gate + Sync>(
    rt: &R,
    alloc: Global,
    answers: &A,
    workers: u32,
    input: Input,
    clock: &C,
    gate: &G,
) -> Result<Output, AllocError>
    requires ready { A.ready answers.now }
    requires workers { 1 ≤ workers }
    requires few { workers ≤ MAX_WORKERS }
    requires closed { IsClosed (HoldsKey input.graph) (updates_in input.plan) }
    requires sound { Sound input.graph }
    ensures { IfOk result
        (λ output. LeavesTexts workers input.graph input.plan (C.moments clock.now) (bytes_of output)) }
{
    legal_is_short();
    log_reads_back();
    counts_of_a_run();
    one_count();
    input.graph.known();
    input.plan.known();
    // The schedule's steps are no more than there may be.
    let _ = input.plan.schedule().steps();
    let outcome = run_workers_via(
        rt,
        alloc,
        answers,
        &input.plan,
        &input.graph,
        workers,
        clock,
        gate,
    )?;
    known_counts(outcome.replies.as_slice());
    texts_of(alloc, workers, &input.plan, outcome)
}

/// Reads the tables, the streams and the parameter files of a folder, runs their plan by so many workers,
/// each in a thread of its own where one can be made, and makes the texts of the run. What answers its reads is ready,
/// and the shelf may be asked for these files (`allowed`).
pub fn run<
    R: AllocGlobal + Threads + Wait + Sync,
    A: Replies + Sync,
    S: Shelf,
    C: Clock + Sync,
    G: Gate + Sync,
>(
    rt: &R,
    answers: &A,
    shelf: &mut S,
    folder: &str,
    workers: u32,
    ratio: Ratio,
    frequencies: Frequencies,
    clock: &C,
    gate: &G,
) -> Result<Finished, Load>
    requires ready { A.ready answers.now }
    requires workers { 1 ≤ workers }
    requires few { workers ≤ MAX_WORKERS }
    requires allowed { Allows (S.may shelf.old) (IsNameOf (Run folder.now workers ratio frequencies)) }
    ensures answer { (given : Given) → IsFinished (Run folder.now workers ratio frequencies) (S.contents shelf.old)
        given (C.moments clock.now) result }
    ensures read { IsShelfRead (is_read_fault result) S.Shelf shelf.old shelf.new }
{
    let input = load_input(rt.alloc(), shelf, folder, ratio, frequencies)?;
    let output = run_output(rt, rt.alloc(), answers, workers, input, clock, gate)?;
    Ok(Finished { output, status: 0 })
}
