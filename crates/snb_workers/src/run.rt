//! The run of a plan by one worker.

ghost use Rattle.std.specs.Prelude.{◌≡◌, ℕ, ◌≤◌, IfOk};
ghost use Rattle.snb_graph_model.specs.Graphs.{HoldsKey};
ghost use Rattle.snb_graph_model.specs.Soundness.{Sound};
ghost use Rattle.snb_plan.specs.Closed.{IsClosed};
ghost use Rattle.snb_plan.specs.Plans.{updates_in};
ghost use Rattle.snb_replica.specs.Runs.{HasRun};

use crate::crew::{Worker, outcome_of};
use snb_base::{Clock, Gate};
use snb_board::Board;
use snb_graph::Graph;
use snb_plan::Plan;
use snb_replica::Outcome;
use snb_replies::Replies;
use std::alloc::{AllocError, Global};
use std::sync::Wait;

/// Runs the plan on this thread, by one worker: each operation is claimed, done and finished. An insert is
/// in the graph from its Finish on. A read is answered from the graph of all that has finished.
///
/// The conditions: `ready`, what answers reads is ready; `sound`, the base is sound; `closed`, the plan is closed
/// over it. The history is one of one worker, and so of any number of them.
pub fn run_alone_via<R: Wait, A: Replies, C: Clock, G: Gate>(
    rt: &R,
    alloc: Global,
    answers: &A,
    plan: &Plan,
    base: &Graph,
    clock: &C,
    gate: &G,
) -> Result<Outcome, AllocError>
    requires ready { A.ready answers.now }
    requires sound { Sound base.now }
    requires closed { IsClosed (HoldsKey base.now) (updates_in plan.now) }
    ensures ran { IfOk result (λ o. (workers : ℕ) → 1 ≤ workers →
        HasRun workers plan.now (C.moments clock.now) base.now o.events o.replies o.graph) }
{
    base.known();
    let (board, mut seats) = Board::make(alloc, plan.schedule(), 1)?;
    let Some(seat) = seats.pop() else {
        unreachable!()
    };
    let mut crew = Vec::with_capacity(alloc, 1)?;
    crew.push(Worker::run(rt, alloc, answers, &board, seat, plan, base, clock, gate))?;
    outcome_of(alloc, plan, board, crew)
}
