//! The run of a plan by several workers, each in a thread of its own where one can be made.

ghost use Rattle.std.specs.Prelude.{◌≡◌, ◌≤◌, IfOk};
ghost use Rattle.snb_schema.specs.declared.limits.TheConstants.{MAX_WORKERS};
ghost use Rattle.snb_graph_model.specs.Graphs.{HoldsKey};
ghost use Rattle.snb_graph_model.specs.Soundness.{Sound};
ghost use Rattle.snb_plan.specs.Closed.{IsClosed};
ghost use Rattle.snb_plan.specs.Plans.{schedule_of, updates_in};
ghost use Rattle.snb_workers.specs.Crews.{AllLeave, AreReady};
ghost use Rattle.snb_replica.specs.Runs.{HasRun};

use crate::crew::{Worker, outcome_of};
use snb_base::{Clock, Gate};
use snb_board::{Board, Seat};
use snb_graph::Graph;
use snb_plan::Plan;
use snb_replica::Outcome;
use snb_replies::Replies;
use std::alloc::{AllocError, Global};
use std::sync::Wait;
use std::thread;
use std::thread::Threads;

// A copy of the graph whose rows are frozen, so that its own copies share them.
fn frozen_copy(graph: &Graph) -> Result<Graph, AllocError>
    ensures { IfOk result (λ copy. copy ≡ graph.now) }
{
    let mut copy = graph.try_copy()?;
    copy.freeze()?;
    Ok(copy)
}

// Lets a worker work at each seat, in a thread of its own where one can be made, else one after another.
fn work_all<R: Threads + Wait + Sync, A: Replies + Sync, C: Clock + Sync, G: Gate + Sync>(
    rt: &R,
    alloc: Global,
    answers: &A,
    board: &Board,
    seats: Vec<Seat>,
    plan: &Plan,
    base: &Graph,
    clock: &C,
    gate: &G,
) -> Result<Vec<Result<Worker, AllocError>>, AllocError>
    requires ready { A.ready answers.now }
    requires board { board.now.schedule ≡ schedule_of plan.now }
    requires seats { AreReady board.now seats.items }
    requires sound { Sound base.now }
    requires closed { IsClosed (HoldsKey base.now) (updates_in plan.now) }
    ensures { IfOk result (λ crew. AllLeave plan.now (C.moments clock.now) base.now seats.items crew.items) }
{
    thread::map_vec(
        rt,
        seats,
        &|seat: Seat| { Worker::run(rt, alloc, answers, board, seat, plan, base, clock, gate) },
    )
}

/// Runs the plan by so many workers, 1 to 8, each in a thread of its own where one can be made, else one
/// after another: they share a board, and each brings a replica of its own forward when it answers a read.
///
/// The conditions: `ready`, what answers reads is ready; `some` and `few`, the number of workers; `sound`, the base
/// is sound; `closed`, the plan is closed over it. Where a worker has no memory it halts, and the answer is Err once
/// all have returned.
pub fn run_workers_via<
    R: Threads + Wait + Sync,
    A: Replies + Sync,
    C: Clock + Sync,
    G: Gate + Sync,
>(
    rt: &R,
    alloc: Global,
    answers: &A,
    plan: &Plan,
    base: &Graph,
    workers: u32,
    clock: &C,
    gate: &G,
) -> Result<Outcome, AllocError>
    requires ready { A.ready answers.now }
    requires some { 1 ≤ workers }
    requires few { workers ≤ MAX_WORKERS }
    requires sound { Sound base.now }
    requires closed { IsClosed (HoldsKey base.now) (updates_in plan.now) }
    ensures ran { IfOk result (λ o. HasRun workers plan.now (C.moments clock.now) base.now o.events o.replies o.graph) }
{
    base.known();
    let (board, seats) = Board::make(alloc, plan.schedule(), workers)?;
    let base = frozen_copy(base)?;
    let crew = work_all(rt, alloc, answers, &board, seats, plan, &base, clock, gate)?;
    outcome_of(alloc, plan, board, crew)
}
