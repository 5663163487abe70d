//! The counts of a log that have to be looked at.

ghost use Rattle.std.specs.Prelude.{◌≡◌, ℕ, ◌<◌, ◌≤◌, All, IfOk, IfSome, ⊤, MatchBool, IfNone, length, ◌^◌};
ghost use Rattle.std.specs.List.Sorted.{IsNonDecreasingBy};
ghost use Rattle.snb_history.specs.Rules.{IsLegal};
ghost use Rattle.snb_plan.specs.Plans.{schedule_of};
ghost use Rattle.snb_audit_model.specs.Miscounts.{events_of};
ghost use Rattle.snb_replica.specs.Replicas.{IfFinish};
ghost use Rattle.snb_miscount.specs.Tallies.{HasTallies, IsFine, IsInsert, IsTally, IsTallyOf};

use snb_history::{Event, Logged};
use snb_plan::{Plan, Task};
use std::alloc::{AllocError, Global};

/// A Finish that a log has with a count.
#[derive(Clone, Copy)]
pub struct Tally {
    /// The number of the event, from 0.
    pub event: u32,
    /// The operation that it finishes.
    pub op: u32,
    /// Its front.
    pub front: u32,
    /// How many rows the log has.
    pub found: u32,
}

// Whether the operation is an insert. It is in the plan.
fn is_insert(plan: &Plan, op: u32) -> bool
    requires { op < length plan.now.operations }
    ensures { MatchBool result (IsInsert plan.now op) ⊤ }
{
    match plan.task(op) {
        Task::Insert { .. } => true,
        Task::Ask { .. } => false,
    }
}

// The tally of the event of this number, unless the event is fine without a look at any graph. The
// operation of a Finish is in the plan.
fn tally_of(plan: &Plan, event: u32, one: &Logged) -> Option<Tally>
    requires { IfFinish one.now.event (λ op. op < length plan.now.operations) }
    ensures fine { IfNone result (IsFine plan.now one.now) }
    ensures tally { IfSome result (IsTallyOf one.now) }
    ensures event { IfSome result (λ t. t.event ≡ event) }
{
    let Event::Finish { op, front, .. } = one.event else {
        return None;
    };
    let found = one.rows?;
    if found == 0 && is_insert(plan, op) {
        return None;
    }
    Some(Tally {
        event,
        op,
        front,
        found,
    })
}

// The tallies of a legal history of the plan, in the order of the events.
fn tallies_of(alloc: Global, plan: &Plan, logged: &[Logged]) -> Result<Vec<Tally>, AllocError>
    requires legal { (workers : ℕ) × IsLegal (schedule_of plan.now) workers (events_of logged.now) }
    requires few { length logged.now < 2 ^ 32 }
    ensures each { IfOk result (λ tallies. All (IsTally logged.now) tallies.items) }
    ensures all { IfOk result (λ tallies. HasTallies plan.now logged.now tallies.items) }
{
    let mut tallies = Vec::new(alloc);
    for event in 0..logged.len() {
        if let Some(tally) = tally_of(plan, event as u32, &logged[event]) {
            tallies.push(tally)?;
        }
    }
    Ok(tallies)
}

/// The tallies of a legal history of the plan, in an order in which their fronts don't fall: of each Finish
/// that has a count, but for an insert with a count of 0.
pub fn tallies_by_front(
    alloc: Global,
    plan: &Plan,
    logged: &[Logged],
) -> Result<Vec<Tally>, AllocError>
    requires legal { (workers : ℕ) × IsLegal (schedule_of plan.now) workers (events_of logged.now) }
    requires few { length logged.now < 2 ^ 32 }
    ensures each { IfOk result (λ tallies. All (IsTally logged.now) tallies.items) }
    ensures all { IfOk result (λ tallies. HasTallies plan.now logged.now tallies.items) }
    ensures rises { IfOk result (λ tallies. IsNonDecreasingBy (λ t. t.front) tallies.items) }
{
    let mut tallies = tallies_of(alloc, plan, logged)?;
    tallies.sort_unstable_by_key(|one| one.front);
    Ok(tallies)
}
