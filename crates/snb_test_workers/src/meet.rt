//! The call that shows that workers run side by side.

ghost use Rattle.snb_test_workers.specs.Wholes.{IsWhole};

use crate::closed::{Planned, load_closed};
use crate::meeting::Meeting;
use snb_base::FarClock;
use snb_history::Event;
use snb_own_reads::run_workers;
use snb_plan::Plan;
use snb_test_script::{Files, Flaw, first_word, number_of};
use std::alloc::Global;
use std::sync::Wait;
use std::thread::Threads;

// How many operations these events finish.
fn finish_count(events: &[Event]) -> usize {
    events
        .iter()
        .filter(|event| matches!(event, Event::Finish { .. }))
        .count()
}

// Whether as many operations are finished as the plan has.
fn completeness(plan: &Plan, events: &[Event]) -> &'static str {
    if finish_count(events) == plan.schedule().steps().len() {
        "complete"
    } else {
        "incomplete"
    }
}

// Whether the workers met.
fn told_gate(gate: &Meeting) -> &'static str {
    if gate.is_missed() { "missed" } else { "met" }
}

// Two workers run the plan, and the gate holds each until both have an operation in hand. Workers who took
// turns on one thread, each with one operation from its Start to its Finish, would miss one another.
fn told_meeting<R: Threads + Wait + Sync>(
    rt: &R,
    alloc: Global,
    whole: &Planned,
    now: u64,
) -> Result<String, Flaw>
    requires { IsWhole whole.now.graph whole.now.plan }
{
    let gate = Meeting::new();
    let clock = FarClock::new(now);
    let outcome = run_workers(rt, alloc, &whole.plan, &whole.graph, 2, &clock, &gate)?;
    let met = told_gate(&gate);
    let count = outcome.events.as_slice().len();
    let complete = completeness(&whole.plan, outcome.events.as_slice());
    Ok(format!(in alloc; "{met}, {count} events, {complete}")?)
}

/// `meet NOW RATIO` or `meet NOW RATIO FREQUENCIES`
pub fn meet<R: Threads + Wait + Sync>(
    rt: &R,
    alloc: Global,
    files: &Files,
    rest: &str,
) -> Result<String, Flaw> {
    let (now, terms) = first_word(rest);
    let now = number_of(now)?;
    let whole = load_closed(alloc, files, terms)?;
    told_meeting(rt, alloc, &whole, now)
}
