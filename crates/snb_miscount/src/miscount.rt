//! Counts of a log that aren't right.

ghost use Rattle.std.specs.Prelude.{◌≡◌, ℕ, ◌<◌, ◌≤◌, All, IfOk, OnOk, List, length};
ghost use Rattle.std.specs.List.Sorted.{IsNonDecreasingBy};
ghost use Rattle.snb_schema.specs.declared.row.Row.{Row};
ghost use Rattle.snb_history.specs.Rules.{IsLegal};
ghost use Rattle.snb_graph_model.specs.Graphs.{HoldsKey};
ghost use Rattle.snb_graph_model.specs.Soundness.{Sound};
ghost use Rattle.snb_plan.specs.Closed.{IsClosed};
ghost use Rattle.snb_plan.specs.Plans.{schedule_of, updates_in};
ghost use Rattle.snb_audit_model.specs.Miscounts.{IsFirstMiscount, events_of};
ghost use Rattle.snb_replica.specs.Replicas.{IsCountable};
ghost use Rattle.snb_miscount.specs.Tallies.{CountsRows, HasGone, IsAlong, IsEarlier, IsLeastAmong, IsTally, IsWeighed};

use crate::tally::{Tally, tallies_by_front};
use snb_audit_model::Miscount;
use snb_graph::Graph;
use snb_graph_model::graphs_are_their_rows;
use snb_history::{Event, Logged, prefix_is_legal};
use snb_plan::{Plan, Task};
use snb_read_laws::{one_reply, some_reply};
use snb_replica::{Replica, count_rows};
use snb_replies::Replies;
use snb_workers_replay::replay_is_welcome;
use std::alloc::{AllocError, Global};

// How many rows the first answer of a read has on the graph, and 0 for an insert. The operation is in the
// plan.
fn rows_at<A: Replies>(
    alloc: Global,
    answers: &A,
    plan: &Plan,
    graph: &Graph,
    op: u32,
) -> Result<u32, AllocError>
    requires ready { A.ready answers.now }
    requires sound { Sound graph.now }
    requires there { op < length plan.now.operations }
    ensures { IfOk result (CountsRows plan.now graph.now op) }
{
    match plan.task(op) {
        Task::Insert { .. } => Ok(0),
        Task::Ask { query } => {
            graph.known();
            one_reply();
            some_reply();
            let own = answers.answer_to(alloc, graph, query)?;
            count_rows(&own)
        }
    }
}

// The events that are logged.
fn events_in(alloc: Global, logged: &[Logged]) -> Result<Vec<Event>, AllocError>
    ensures { IfOk result (λ events. events.items ≡ events_of logged.now) }
{
    let mut events = Vec::with_capacity(alloc, logged.len())?;
    for one in logged {
        events.push(one.event)?;
    }
    Ok(events)
}

// Takes the replica to a front of the history that is no lower than its own.
fn go_to(
    alloc: Global,
    plan: &Plan,
    logged: &[Logged],
    replica: &mut Replica,
    front: u32,
) -> Result<(), AllocError>
    requires along { (base : List Row) × IsAlong base plan.now (events_of logged.now) replica.old }
    requires ahead { replica.old.front ≤ front }
    requires within { front ≤ length logged.now }
    ensures { OnOk result (HasGone plan.now (events_of logged.now) front replica.old replica.new) }
{
    prefix_is_legal();
    let events = events_in(alloc, &logged[replica.front() as usize..front as usize])?;
    replica.advance(alloc, plan, &events)?;
    Ok(())
}

// The earlier of two.
fn earlier(best: Option<Miscount>, other: Miscount) -> Miscount
    ensures { IsEarlier best other result }
{
    match best {
        Some(best) if best.event < other.event => best,
        _ => other,
    }
}

// The first wrong count with one tally more, whose event needs this count.
fn weighed(best: Option<Miscount>, one: &Tally, needs: u32) -> Option<Miscount>
    ensures { IsWeighed best one.now needs result }
{
    if needs == one.found {
        return best;
    }
    let miscount = Miscount {
        event: one.event,
        needs,
        found: one.found,
    };
    Some(earlier(best, miscount))
}

// The first wrong count among those of the tallies, whose fronts don't fall.
fn least_among<A: Replies>(
    alloc: Global,
    answers: &A,
    plan: &Plan,
    base: &Graph,
    logged: &[Logged],
    tallies: &[Tally],
) -> Result<Option<Miscount>, AllocError>
    requires ready { A.ready answers.now }
    requires sound { Sound base.now }
    requires closed { IsClosed (HoldsKey base.now) (updates_in plan.now) }
    requires legal { (workers : ℕ) × IsCountable workers (events_of logged.now)
        × IsLegal (schedule_of plan.now) workers (events_of logged.now) }
    requires each { All (IsTally logged.now) tallies.now }
    requires rises { IsNonDecreasingBy (λ t. t.front) tallies.now }
    ensures { IfOk result (IsLeastAmong base.now plan.now logged.now tallies.now) }
{
    base.known();
    plan.known();
    graphs_are_their_rows();
    replay_is_welcome();
    one_reply();
    if tallies.is_empty() {
        return Ok(None);
    }
    let mut replica = Replica::new(base)?;
    let mut best = None;
    for one in tallies {
        go_to(alloc, plan, logged, &mut replica, one.front)?;
        let needs = rows_at(alloc, answers, plan, replica.graph(), one.op)?;
        best = weighed(best, one, needs);
    }
    Ok(best)
}

/// The first event of a log that is a Finish with a wrong count of rows, if there is one. A log that has no
/// counts has none.
///
/// The conditions: what answers reads is ready, the base is sound, the plan's updates are closed over it, and the
/// events that are logged are a legal history of the plan by some number of workers.
///
/// One replica of the base takes the history once, and each read with a count is answered once, without the
/// reads that follow it, in the order of the fronts. There is no replica where no count has to be looked at: those of
/// a log without counts, and the 0 of each insert. An answer of more rows than the greatest u32 is want of memory
/// too, and so is a log of more events.
pub fn first_miscount_via<A: Replies>(
    alloc: Global,
    answers: &A,
    plan: &Plan,
    base: &Graph,
    logged: &[Logged],
) -> Result<Option<Miscount>, AllocError>
    requires ready { A.ready answers.now }
    requires sound { Sound base.now }
    requires closed { IsClosed (HoldsKey base.now) (updates_in plan.now) }
    requires legal { (workers : ℕ) × IsLegal (schedule_of plan.now) workers (events_of logged.now) }
    ensures { IfOk result (IsFirstMiscount base.now plan.now logged.now) }
{
    if logged.len() > u32::MAX as usize {
        return Err(AllocError);
    }
    let tallies = tallies_by_front(alloc, plan, logged)?;
    least_among(alloc, answers, plan, base, logged, &tallies)
}
