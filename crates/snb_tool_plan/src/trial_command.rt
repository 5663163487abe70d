//! The command `trial`.

ghost use Rattle.std.specs.Prelude.{◌≡◌, ◌≤◌, false, IfOk, Option};
ghost use Rattle.snb_base.specs.Shelf.{Files};
ghost use Rattle.snb_input_files.specs.Loading.{is_read_fault};
ghost use Rattle.snb_schema.specs.declared.limits.TheConstants.{MAX_WORKERS};
ghost use Rattle.snb_tool_words.specs.declared.command.Command.TheVariants.{Trial};
ghost use Rattle.snb_schema.specs.declared.limits.TheConstants.{MAX_TRIAL};
ghost use Rattle.snb_tool_outcome.specs.Endings.{IsFinished};
ghost use Rattle.snb_tool_outcome.specs.PlanEndings.{IsTrialInput};
ghost use Rattle.snb_tool_outcome.specs.Found.{Given};

use crate::run_command::run_output;
use snb_base::{Clock, Gate};
use snb_input_files::Load;
use snb_plan::{Plan, PlanFault};
use snb_replies::Replies;
use snb_tool_outcome::{Finished, Input};
use snb_trial::{
    lanes_are_of_streams, lists_are_enough, seven_updates, trial_frequencies, trial_input,
    trial_ratio, updates_are_closed,
};
use std::alloc::{AllocError, Global};
use std::sync::Wait;
use std::thread::Threads;

// The dataset and the plan of the formula workload of a size.
fn input_of_size(alloc: Global, size: u32) -> Result<Input, AllocError>
    requires some { 1 ≤ size }
    requires few { size ≤ MAX_TRIAL }
    ensures { IfOk result (IsTrialInput size) }
{
    lanes_are_of_streams();
    lists_are_enough();
    seven_updates();
    updates_are_closed();
    let (graph, lanes, lists) = trial_input(alloc, size)?;
    match Plan::make(alloc, lanes, lists, trial_frequencies(), trial_ratio()) {
        Ok(plan) => Ok(Input { graph, plan }),
        Err(PlanFault::Memory) => Err(AllocError),
        // There are at most 35,000 updates, and fewer reads than updates.
        Err(PlanFault::Refused { .. }) => unreachable!(),
    }
}

/// Runs the formula workload of a size, 1 to `MAX_TRIAL`, by so many workers, 1 to 8, each in a thread of its
/// own, and makes the texts of the run. No file is read. What answers its reads is ready.
pub fn trial<
    R: AllocGlobal + Threads + Wait + Sync,
    A: Replies + Sync,
    C: Clock + Sync,
    G: Gate + Sync,
>(rt: &R, answers: &A, size: u32, workers: u32, clock: &C, gate: &G) -> Result<Finished, Load>
    requires ready { A.ready answers.now }
    requires some { 1 ≤ size }
    requires few { size ≤ MAX_TRIAL }
    requires workers { 1 ≤ workers }
    requires crew { workers ≤ MAX_WORKERS }
    ensures answer { (contents : Option Files) (given : Given)
        → IsFinished (Trial size workers) contents given (C.moments clock.now) result }
    ensures read { is_read_fault result ≡ false }
{
    let input = input_of_size(rt.alloc(), size)?;
    let output = run_output(rt, rt.alloc(), answers, workers, input, clock, gate)?;
    Ok(Finished { output, status: 0 })
}
