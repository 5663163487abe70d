//! Runs of a plan.

ghost use Rattle.std.specs.Prelude.{◌≡◌, ℕ, ◌≤◌, IfOk, OnErr, List, length};
ghost use Rattle.snb_schema.specs.declared.limits.TheConstants.{MAX_WORKERS};
ghost use Rattle.snb_schema.specs.declared.row.Row.{Row};
ghost use Rattle.snb_graph_model.specs.Graphs.{HoldsKey};
ghost use Rattle.snb_graph_model.specs.Soundness.{Sound};
ghost use Rattle.snb_plan.specs.Closed.{IsClosed};
ghost use Rattle.snb_plan.specs.Plans.{schedule_of, updates_in};
ghost use Rattle.snb_replica.specs.Runs.{HasRun};
ghost use Rattle.snb_workers.specs.Works.{AreTimely, HasStopped, HasWorked, IsFollowing, IsFree, IsLater};

use snb_answered::Done;
use snb_base::{Clock, Gate};
use snb_board::{Board, Seat};
use snb_graph::Graph;
use snb_plan::Plan;
use snb_read_replies::OwnReads;
use snb_replica::Replica;
use snb_workers::{Outcome, run_alone_via, run_workers_via, work_via};
use std::alloc::{AllocError, Global};
use std::sync::Wait;
use std::thread::Threads;

/// Works at a board, as `work_via` of `snb_workers` does by the graph's own reads, until nothing is left to start, or
/// another worker has halted. Where there is no memory, the worker halts, what it has in hand stays unfinished, and
/// the answer is Err.
///
/// The conditions: `board`, the board is one of the plan's schedule; `seat`, the seat is one of the board's;
/// `free`, its worker has nothing in hand and hasn't halted; `following`, the replica stands for a
/// beginning of what the seat has seen, over a base over which the plan is closed.
pub fn work<R: Wait, C: Clock, G: Gate>(
    rt: &R,
    alloc: Global,
    board: &Board,
    seat: &mut Seat,
    plan: &Plan,
    replica: &mut Replica,
    clock: &C,
    gate: &G,
) -> Result<Done, AllocError>
    requires board { board.now.schedule ≡ schedule_of plan.now }
    requires seat { seat.old.site ≡ board.now }
    requires free { IsFree seat.old }
    requires following { (base : List Row) × IsFollowing base plan.now seat.old.seen replica.old }
    ensures later { IsLater seat.old seat.new }
    ensures follows { (base : List Row) → IsFollowing base plan.now seat.old.seen replica.old
        → IsFollowing base plan.now seat.new.seen replica.new }
    ensures timely { AreTimely (C.moments clock.now) seat.old.worker (length seat.old.seen) seat.new.seen }
    ensures ok { IfOk result (HasWorked plan.now (C.moments clock.now) seat.old seat.new replica.old replica.new) }
    ensures err { OnErr result (HasStopped seat.new) }
{
    work_via(
        rt, alloc, &OwnReads, board, seat, plan, replica, clock, gate,
    )
}

/// Runs the plan on this thread, by one worker, as `run_alone_via` of `snb_workers` does by the graph's own reads.
///
/// The conditions: `sound`, the base is sound; `closed`, the plan is closed over it. The history is one of
/// one worker, and so of any number of them.
pub fn run_alone<R: Wait, C: Clock, G: Gate>(
    rt: &R,
    alloc: Global,
    plan: &Plan,
    base: &Graph,
    clock: &C,
    gate: &G,
) -> Result<Outcome, AllocError>
    requires sound { Sound base.now }
    requires closed { IsClosed (HoldsKey base.now) (updates_in plan.now) }
    ensures ran { IfOk result (λ o. (workers : ℕ) → 1 ≤ workers →
        HasRun workers plan.now (C.moments clock.now) base.now o.events o.replies o.graph) }
{
    run_alone_via(rt, alloc, &OwnReads, plan, base, clock, gate)
}

/// Runs the plan by so many workers, 1 to 8, each in a thread of its own where one can be made, as `run_workers_via`
/// of `snb_workers` does by the graph's own reads.
///
/// The conditions: `some` and `few`, the number of workers; `sound`, the base is sound; `closed`, the plan
/// is closed over it. Where a worker has no memory it halts, and the answer is Err once all have returned.
pub fn run_workers<R: Threads + Wait + Sync, C: Clock + Sync, G: Gate + Sync>(
    rt: &R,
    alloc: Global,
    plan: &Plan,
    base: &Graph,
    workers: u32,
    clock: &C,
    gate: &G,
) -> Result<Outcome, AllocError>
    requires some { 1 ≤ workers }
    requires few { workers ≤ MAX_WORKERS }
    requires sound { Sound base.now }
    requires closed { IsClosed (HoldsKey base.now) (updates_in plan.now) }
    ensures ran { IfOk result (λ o. HasRun workers plan.now (C.moments clock.now) base.now o.events o.replies o.graph) }
{
    run_workers_via(rt, alloc, &OwnReads, plan, base, workers, clock, gate)
}
