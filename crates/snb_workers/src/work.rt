//! What one of several workers does, who share a board.

ghost use Rattle.std.specs.Prelude.{◌≡◌, ◌≢◌, ◌<◌, All, AllPairs, List, IfOk, OnErr, OnOk, length, true};
ghost use Rattle.snb_schema.specs.declared.row.Row.{Row};
ghost use Rattle.snb_history.specs.Schedule.{IsOperation};
ghost use Rattle.snb_book.specs.Kept.{IsInHand};
ghost use Rattle.snb_board.specs.Boards.{HasLearned, Sitting};
ghost use Rattle.snb_plan.specs.Plans.{schedule_of};
ghost use Rattle.snb_replica.specs.Replicas.{Taken};
ghost use Rattle.snb_workers.specs.Turns.{IsServed};
ghost use Rattle.snb_workers.specs.WorkTurns.{HasCome, HasFollowed, IsAbreast, IsAtWork, IsHolding, IsReadyFor, TurnsOn};
ghost use Rattle.snb_workers.specs.Works.{AreTimely, HasStopped, HasWorked, IsFollowing, IsFree, IsLater};

use snb_answered::{Answered, Done};
use snb_base::{Clock, Gate, OwnedList, Phase};
use snb_board::{Board, Seat};
use snb_book::{Claim, Ticket};
use snb_history::{hand_is_own, prefix_is_legal};
use snb_plan::{Plan, Task};
use snb_replica::Replica;
use snb_replies::Replies;
use std::alloc::{AllocError, Global};
use std::sync::Wait;

// Whether there may be more to do.
#[derive(Clone, Copy)]
enum Turn {
    More,
    Over,
}

/// What the Finish of an operation says that was done just now: its front, and the moment that the clock
/// showed then.
#[derive(Clone, Copy)]
pub struct Served {
    pub front: u32,
    pub now: u64,
}

// Answers the operation that the seat has in hand from the replica, if it is a read, and keeps the text of its
// reply and how many rows that has. The clock is asked when the reply is there.
fn serve<A: Replies, C: Clock>(
    alloc: Global,
    answers: &A,
    plan: &Plan,
    replica: &Replica,
    replies: &mut Done,
    seat: &Seat,
    ticket: Ticket,
    clock: &C,
) -> Result<Served, AllocError>
    requires ready { A.ready answers.now }
    requires there { IsOperation (schedule_of plan.now) ticket.op }
    requires held { IsInHand seat.now.seen ticket }
    requires new { All (λ other. other.op ≢ ticket.op) replies.old }
    ensures served { IfOk result
        (IsServed plan.now (C.moments clock.now) ticket.op replica.now replies.old replies.new) }
    ensures told { IfOk result (λ served. (C.moments clock.now).tells served.now ≡ true) }
    ensures rise { OnOk result (AllPairs (λ one other. one.op < other.op) replies.new) }
{
    let served = match plan.task(ticket.op) {
        Task::Insert { .. } => Served {
            front: 0,
            now: clock.now(),
        },
        Task::Ask { query } => {
            let front = replica.front();
            let (rows, text) = replica
                .answer_text(alloc, answers, query, seat, ticket)?
                .into_parts();
            let text = OwnedList::from_vec(alloc, text);
            let now = clock.after(text.as_slice());
            replies.push(Answered {
                op: ticket.op,
                front,
                rows,
                text,
            })?;
            Served { front, now }
        }
    };
    replies.known();
    Ok(served)
}

// What the workers at a board share.
#[derive(Drop)]
struct Shared<'a, R, A, C, G> {
    rt: &'a R,
    alloc: Global,
    answers: &'a A,
    board: &'a Board,
    plan: &'a Plan,
    clock: &'a C,
    gate: &'a G,
}

impl<'a, R: Wait, A: Replies, C: Clock, G: Gate> Shared<'a, R, A, C, G> {
    // The replica takes what has happened at the board since.
    fn follow(&self, seat: &mut Seat, replica: &mut Replica) -> Result<(), AllocError>
        requires board { seat.old.site ≡ self.now.board.now }
        requires schedule { seat.old.site.schedule ≡ schedule_of self.now.plan.now }
        requires following { (base : List Row) × IsFollowing base self.now.plan.now seat.old.seen replica.old }
        ensures followed { HasFollowed self.now.plan.now seat.old seat.new replica.old replica.new }
        ensures ok { OnOk result (IsAbreast self.now.plan.now seat.old seat.new replica.old replica.new) }
    {
        // Called for what it ensures of the board, which `advance` asks: it has 1 to 8 workers.
        self.board.workers();
        let mut events = Vec::new(self.alloc);
        self.board
            .catch_up(self.rt, seat, replica.front(), &mut events)?;
        replica.advance(self.alloc, self.plan, &events)
    }

    // Brings the replica forward if the operation is a read, which is answered from it then.
    fn make_ready(&self, seat: &mut Seat, replica: &mut Replica, op: u32) -> Result<(), AllocError>
        requires board { seat.old.site ≡ self.now.board.now }
        requires schedule { seat.old.site.schedule ≡ schedule_of self.now.plan.now }
        requires following { (base : List Row) × IsFollowing base self.now.plan.now seat.old.seen replica.old }
        requires there { IsOperation (schedule_of self.now.plan.now) op }
        ensures followed { HasFollowed self.now.plan.now seat.old seat.new replica.old replica.new }
        ensures ok { OnOk result (IsReadyFor self.now.plan.now op seat.old seat.new replica.old replica.new) }
    {
        match self.plan.task(op) {
            Task::Insert { .. } => Ok(()),
            Task::Ask { .. } => self.follow(seat, replica),
        }
    }

    // Does the operation of a ticket that was claimed just now, and finishes it.
    fn do_claimed(
        &self,
        seat: &mut Seat,
        replica: &mut Replica,
        replies: &mut Done,
        ticket: Ticket,
    ) -> Result<(), AllocError>
        requires ready { A.ready self.now.answers.now }
        requires board { seat.old.site ≡ self.now.board.now }
        requires holding { (first : Sitting) × (old : Taken)
            × IsHolding self.now.plan.now (C.moments self.now.clock.now) first old seat.old replica.old replies.old
            ticket }
        ensures ok { OnOk result
            ((first : Sitting) (old : Taken)
            → IsHolding self.now.plan.now (C.moments self.now.clock.now) first old seat.old replica.old replies.old
            ticket →
            IsAtWork self.now.plan.now (C.moments self.now.clock.now) first old seat.new replica.new replies.new) }
        ensures err { OnErr result
            ((first : Sitting) (old : Taken)
            → IsHolding self.now.plan.now (C.moments self.now.clock.now) first old seat.old replica.old replies.old
            ticket →
            HasCome self.now.plan.now (C.moments self.now.clock.now) first old seat.new replica.new) }
    {
        hand_is_own();
        self.plan.known();
        self.gate
            .pass(self.rt, ticket.worker, ticket.op, Phase::Held);
        self.make_ready(seat, replica, ticket.op)?;
        let served = serve(
            self.alloc,
            self.answers,
            self.plan,
            replica,
            replies,
            seat,
            ticket,
            self.clock,
        )?;
        self.board
            .finish(self.rt, seat, ticket, served.now, served.front);
        self.gate
            .pass(self.rt, ticket.worker, ticket.op, Phase::Done);
        Ok(())
    }

    // Rests for the least while, since another worker may finish what is waited for at any moment; but not
    // at all where the completion time that was published since has come to what is needed.
    fn wait_for(&self, seat: &mut Seat, now: u64, needs: u64)
        requires { seat.old.site ≡ self.now.board.now }
        ensures { HasLearned seat.old seat.new seat.new.told }
    {
        let completion = self.board.completion(seat);
        if completion < 0 || (completion as u64) < needs {
            self.clock.rest(self.rt, now.saturating_add(1));
        }
    }

    // Claims an operation, does it and finishes it; or rests where none may start now.
    fn take_turn(
        &self,
        seat: &mut Seat,
        replica: &mut Replica,
        replies: &mut Done,
    ) -> Result<Turn, AllocError>
        requires ready { A.ready self.now.answers.now }
        requires board { seat.old.site ≡ self.now.board.now }
        requires at_work { (first : Sitting) × (old : Taken)
            × IsAtWork self.now.plan.now (C.moments self.now.clock.now) first old seat.old replica.old replies.old }
        ensures ok { IfOk result
            (λ turn. (first : Sitting) (old : Taken)
            → IsAtWork self.now.plan.now (C.moments self.now.clock.now) first old seat.old replica.old replies.old →
            TurnsOn self.now.plan.now (C.moments self.now.clock.now) first old seat.new replica.new replies.new turn) }
        ensures err { OnErr result
            ((first : Sitting) (old : Taken)
            → IsAtWork self.now.plan.now (C.moments self.now.clock.now) first old seat.old replica.old replies.old →
            HasCome self.now.plan.now (C.moments self.now.clock.now) first old seat.new replica.new) }
    {
        hand_is_own();
        prefix_is_legal();
        let now = self.clock.now();
        match self.board.claim(self.rt, seat, now) {
            Claim::AllStarted => Ok(Turn::Over),
            Claim::Halted => Ok(Turn::Over),
            Claim::NotDue { until } => {
                self.clock.rest(self.rt, until);
                Ok(Turn::More)
            }
            Claim::Blocked { needs, .. } => {
                self.wait_for(seat, now, needs);
                Ok(Turn::More)
            }
            Claim::Busy { .. } => {
                self.clock.rest(self.rt, now.saturating_add(1));
                Ok(Turn::More)
            }
            Claim::Go { ticket } => {
                self.do_claimed(seat, replica, replies, ticket)?;
                Ok(Turn::More)
            }
        }
    }
}

/// Works at a board until nothing is left to start, or another worker has halted: each operation is
/// claimed, done and finished. A read is answered from the replica, which is brought forward to all that
/// has happened just before, and the clock is asked for the moment of its Finish with the bytes of its reply at
/// hand. Where there is no memory, the worker halts, what it has in hand stays
/// unfinished, and the answer is Err.
///
/// The conditions: `ready`, what answers reads is ready; `board`, the board is one of the plan's schedule; `seat`,
/// the seat is one of the board's; `free`, its worker has nothing in hand and hasn't halted; `following`, the replica
/// stands for a beginning of what the seat has seen, over a base over which the plan is closed.
pub fn work_via<R: Wait, A: Replies, C: Clock, G: Gate>(
    rt: &R,
    alloc: Global,
    answers: &A,
    board: &Board,
    seat: &mut Seat,
    plan: &Plan,
    replica: &mut Replica,
    clock: &C,
    gate: &G,
) -> Result<Done, AllocError>
    requires ready { A.ready answers.now }
    requires board { board.now.schedule ≡ schedule_of plan.now }
    requires seat { seat.old.site ≡ board.now }
    requires free { IsFree seat.old }
    requires following { (base : List Row) × IsFollowing base plan.now seat.old.seen replica.old }
    ensures later { IsLater seat.old seat.new }
    ensures follows { (base : List Row) → IsFollowing base plan.now seat.old.seen replica.old
        → IsFollowing base plan.now seat.new.seen replica.new }
    ensures timely { AreTimely (C.moments clock.now) seat.old.worker (length seat.old.seen) seat.new.seen }
    ensures ok { IfOk result (HasWorked plan.now (C.moments clock.now) seat.old seat.new replica.old replica.new) }
    ensures err { OnErr result (HasStopped seat.new) }
{
    let shared = Shared {
        rt,
        alloc,
        answers,
        board,
        plan,
        clock,
        gate,
    };
    let mut replies = Done::new(alloc);
    for _ in rt.forever() {
        match shared.take_turn(seat, replica, &mut replies) {
            Ok(Turn::More) => {}
            Ok(Turn::Over) => return Ok(replies),
            Err(error) => {
                board.halt(rt, seat);
                return Err(error);
            }
        }
    }
    unreachable!()
}
