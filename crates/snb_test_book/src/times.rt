//! Calls of the times of a plan.

ghost use Rattle.std.specs.Prelude.{◌≡◌, ◌<◌, ℕ, IsTrue, length, slice_index_or, true};
ghost use Rattle.snb_history.specs.Schedule.{no_step};
ghost use Rattle.snb_completion.specs.Progress.{IsNextInLane, IsOpen, flag};

use crate::state::State;
use snb_completion::Times;
use snb_history::Step;
use snb_test_script::{Flaw, List, nothing, small_number_of, told};
use std::alloc::Global;

/// `times`
pub fn make_times(alloc: Global, state: &mut State, rest: &str) -> Result<String, Flaw> {
    nothing(rest)?;
    match &state.schedule {
        Some(schedule) => {
            let times = Times::new(alloc, schedule)?;
            state.times = Some(times);
            told(alloc, "")
        }
        None => Err(Flaw::OtherValue),
    }
}

// Whether all steps below this number in the lane are started.
fn is_led(steps: &[Step], started: &[bool], lane: u32, op: usize) -> bool
    requires steps { op < length steps.now }
    requires flags { op < length started.now }
    ensures { IsTrue result → (j : ℕ) → j < op → (slice_index_or steps.now j no_step).lane ≡ lane
        → flag started.now j ≡ true }
{
    for before in 0..op {
        if steps[before].lane == lane && !started[before] {
            return false;
        }
    }
    true
}

// Whether the operation is the first unstarted one of its lane.
fn is_next(times: &Times, op: u32) -> bool
    ensures { IsTrue result → IsNextInLane times.now op }
{
    let at = op as usize;
    let steps = times.schedule().steps();
    let started = times.started();
    if at >= steps.len() || at >= started.len() {
        return false;
    }
    !started[at] && is_led(steps, started, steps[at].lane, at)
}

// Whether the operation is started and not finished.
fn is_open(times: &Times, op: u32) -> bool
    ensures { IsTrue result → IsOpen times.now op }
{
    let at = op as usize;
    let started = times.started();
    let finished = times.finished();
    if at >= times.schedule().steps().len() || at >= started.len() || at >= finished.len() {
        return false;
    }
    started[at] && !finished[at]
}

// Starts the operation, where it is the next one of its lane.
fn start_next(times: &mut Times, op: u32) -> Result<(), Flaw> {
    if !is_next(times, op) {
        return Err(Flaw::OtherValue);
    }
    times.start(op);
    Ok(())
}

// Finishes the operation, where it is started.
fn end_open(times: &mut Times, op: u32) -> Result<(), Flaw> {
    if !is_open(times, op) {
        return Err(Flaw::OtherValue);
    }
    times.finish(op);
    Ok(())
}

/// `start OPERATION`
pub fn start(alloc: Global, state: &mut State, rest: &str) -> Result<String, Flaw> {
    let op = small_number_of(rest)?;
    match &mut state.times {
        Some(times) => start_next(times, op)?,
        None => return Err(Flaw::OtherValue),
    }
    told(alloc, "")
}

/// `end OPERATION`
pub fn end(alloc: Global, state: &mut State, rest: &str) -> Result<String, Flaw> {
    let op = small_number_of(rest)?;
    match &mut state.times {
        Some(times) => end_open(times, op)?,
        None => return Err(Flaw::OtherValue),
    }
    told(alloc, "")
}

// The times, once they are made.
fn times_of(state: &State) -> Result<&Times, Flaw> {
    match &state.times {
        Some(times) => Ok(times),
        None => Err(Flaw::OtherValue),
    }
}

// A moment.
fn told_moment(alloc: Global, moment: i64) -> Result<String, Flaw> {
    Ok(format!(in alloc; "{moment}")?)
}

/// `global_completion`
pub fn global(alloc: Global, state: &State, rest: &str) -> Result<String, Flaw> {
    nothing(rest)?;
    told_moment(alloc, times_of(state)?.global_completion())
}

/// `local_completion LANE`
pub fn local(alloc: Global, state: &State, rest: &str) -> Result<String, Flaw> {
    let lane = small_number_of(rest)?;
    told_moment(alloc, times_of(state)?.local_completion(lane))
}

/// `local_initiated LANE`
pub fn initiated(alloc: Global, state: &State, rest: &str) -> Result<String, Flaw> {
    let lane = small_number_of(rest)?;
    told_moment(alloc, times_of(state)?.local_initiated(lane))
}

// The flags in order.
fn told_flags(alloc: Global, flags: &[bool]) -> Result<String, Flaw> {
    let mut list = List::new(alloc);
    for flag in flags {
        list.add(if *flag { "yes" } else { "no" })?;
    }
    list.told(alloc)
}

/// `started` or `finished`
pub fn flags_of(alloc: Global, state: &State, call: &str, rest: &str) -> Result<String, Flaw> {
    nothing(rest)?;
    let times = times_of(state)?;
    match call {
        "started" => told_flags(alloc, times.started()),
        _ => told_flags(alloc, times.finished()),
    }
}
