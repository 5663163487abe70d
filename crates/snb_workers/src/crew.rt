//! What a worker of a run does, and what it leaves.

ghost use Rattle.std.specs.Prelude.{◌≡◌, ◌⊎◌, ℕ, ◌<◌, List, IfOk, OnOk, Option, Some, length};
ghost use Rattle.snb_base.specs.Moments.{Moments};
ghost use Rattle.snb_schema.specs.declared.row.Row.{Row};
ghost use Rattle.snb_graph_model.specs.Graphs.{HoldsKey};
ghost use Rattle.snb_graph_model.specs.Soundness.{Sound};
ghost use Rattle.snb_plan.specs.Closed.{IsClosed};
ghost use Rattle.snb_plan.specs.Plans.{schedule_of, updates_in};
ghost use Rattle.snb_workers.specs.Crews.{ArePartsOf, IsCrew, IsReady, Leaves};
ghost use Rattle.snb_replica.specs.Replicas.{StandsFor};
ghost use Rattle.snb_replica.specs.Runs.{HasRun};
ghost use Rattle.snb_workers.specs.Turns.{IsBehind};

use crate::work::work_via;
use snb_answered::{Answered, Done};
use snb_base::{Clock, Gate};
use snb_board::{Board, Seat};
use snb_book::Book;
use snb_graph::Graph;
use snb_history::{hand_is_own, prefix_is_legal};
use snb_plan::Plan;
use snb_replica::{Events, Outcome, Replica};
use snb_replies::Replies;
use snb_workers_replay::{replay_is_welcome, runs_wait};
use std::alloc::{AllocError, Global};
use std::sync::Wait;

/// What a worker leaves.
pub(crate) struct Worker {
    seat: Seat,
    replica: Replica,
    replies: Done,
}

impl Drop for Worker {
    fn drop(self) {
        let Worker {
            seat: _,
            replica: _,
            replies: _,
        } = self;
    }
}

impl Worker {
    /// Works at a seat, with a replica of the base. Where there is no memory, the worker halts.
    pub(crate) fn run<R: Wait, A: Replies, C: Clock, G: Gate>(
        rt: &R,
        alloc: Global,
        answers: &A,
        board: &Board,
        mut seat: Seat,
        plan: &Plan,
        base: &Graph,
        clock: &C,
        gate: &G,
    ) -> Result<Worker, AllocError>
        requires answers { A.ready answers.now }
        requires board { board.now.schedule ≡ schedule_of plan.now }
        requires ready { IsReady board.now seat }
        requires sound { Sound base.now }
        requires closed { IsClosed (HoldsKey base.now) (updates_in plan.now) }
        ensures { IfOk result (Leaves plan.now (C.moments clock.now) base.now seat) }
    {
        base.known();
        let mut replica = match Replica::new(base) {
            Ok(replica) => replica,
            Err(error) => {
                board.halt(rt, &mut seat);
                return Err(error);
            }
        };
        let replies = work_via(
            rt,
            alloc,
            answers,
            board,
            &mut seat,
            plan,
            &mut replica,
            clock,
            gate,
        )?;
        Ok(Worker {
            seat,
            replica,
            replies,
        })
    }

    // Its seat, its replica and its replies, each for itself.
    fn into_parts(self) -> (Seat, Replica, Done)
        ensures { (result.0 ≡ self.seat) × (result.1 ≡ self.replica) × (result.2 ≡ self.replies) }
    {
        let Worker {
            seat,
            replica,
            replies,
        } = self;
        (seat, replica, replies)
    }
}

// The replica that has come further.
fn further(kept: Option<Replica>, own: Replica) -> Replica
    ensures { (result ≡ own) ⊎ (kept ≡ Some result) }
{
    match kept {
        None => own,
        Some(other) => {
            if other.front() < own.front() {
                own
            } else {
                other
            }
        }
    }
}

// The seats of all, their replies in no order, and the replica that has come furthest.
fn parts_of(
    alloc: Global,
    crew: Vec<Result<Worker, AllocError>>,
) -> Result<(Vec<Seat>, Vec<Answered>, Replica), AllocError>
    requires { 0 < length crew.items }
    ensures { IfOk result (λ parts. ArePartsOf crew.items parts.0.items parts.1.items parts.2) }
{
    let mut seats = Vec::with_capacity(alloc, crew.len())?;
    let mut all = Vec::new(alloc);
    let mut furthest = None;
    for worker in crew {
        let (seat, replica, replies) = worker?.into_parts();
        seats.push(seat)?;
        all.append(&mut replies.into_items())?;
        furthest = Some(further(furthest, replica));
    }
    match furthest {
        Some(replica) => Ok((seats, all, replica)),
        None => unreachable!(),
    }
}

// The replica takes what has happened in the book since.
fn catch_up(
    alloc: Global,
    plan: &Plan,
    book: &Book,
    replica: &mut Replica,
) -> Result<(), AllocError>
    requires behind { (base : List Row) × IsBehind plan.now book.now.history replica.old base }
    ensures { OnOk result
        ((base : List Row) → IsBehind plan.now book.now.history replica.old base
        → StandsFor base plan.now book.now.history replica.new) }
{
    let front = replica.front() as usize;
    replica.advance(alloc, plan, &book.events()[front..])
}

/// What the crew of a board has done, where all had memory.
pub(crate) fn outcome_of(
    alloc: Global,
    plan: &Plan,
    board: Board,
    crew: Vec<Result<Worker, AllocError>>,
) -> Result<Outcome, AllocError>
    requires { (moments : Moments) × (base : List Row) × IsCrew plan.now moments base board crew.items }
    ensures { IfOk result (λ o. (moments : Moments) (base : List Row) → IsCrew plan.now moments base board crew.items →
        HasRun board.workers plan.now moments base o.events o.replies o.graph) }
{
    plan.known();
    replay_is_welcome();
    runs_wait();
    hand_is_own();
    prefix_is_legal();
    let (seats, replies, mut replica) = parts_of(alloc, crew)?;
    let book = board.close(seats);
    let replies = Done::of(alloc, replies)?;
    replies.known();
    catch_up(alloc, plan, &book, &mut replica)?;
    Ok(Outcome {
        events: Events::from_vec(alloc, book.into_events()),
        replies,
        graph: replica.into_graph(),
    })
}
