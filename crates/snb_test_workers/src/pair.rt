//! The call in which two threads work at one board.

ghost use Rattle.std.specs.Prelude.{◌≡◌, [], IfOk};
ghost use Rattle.snb_board.specs.Boards.{AreSeats};
ghost use Rattle.snb_test_board.specs.Crews.{AreInOrder, IsSameSeat};
ghost use Rattle.snb_plan.specs.Plans.{schedule_of};
ghost use Rattle.snb_test_workers.specs.Wholes.{IsWhole};

use crate::closed::{Planned, load_closed};
use snb_answered::Done;
use snb_base::{Clock, FarClock, Gate, OpenGate};
use snb_board::{Board, Seat};
use snb_book::Book;
use snb_own_reads::work;
use snb_replica::Replica;
use snb_test_board::{closed_by_all, completeness};
use snb_test_script::{Files, Flaw, first_word, number_of};
use std::alloc::{AllocError, Global};
use std::sync::Wait;
use std::sync::atomic::{AtomicU64, Ordering};
use std::thread;
use std::thread::Threads;

// What the threads tell of their work.
struct Tally {
    // How many replies they have.
    replies: AtomicU64,
    // How many of them had no memory.
    stopped: AtomicU64,
}

impl Drop for Tally {
    fn drop(self) {
        let Tally {
            replies: _,
            stopped: _,
        } = self;
    }
}

impl Tally {
    // Before they work.
    fn new() -> Tally {
        Tally {
            replies: AtomicU64::new(0),
            stopped: AtomicU64::new(0),
        }
    }

    // Takes what one of them tells.
    fn take(&self, replies: Result<u64, AllocError>) {
        match replies {
            Ok(count) => {
                self.replies.fetch_add(count, Ordering::SeqCst);
            }
            Err(_) => {
                self.stopped.fetch_add(1, Ordering::SeqCst);
            }
        }
    }

    // Tells it, with what stands in the book.
    fn told(&self, alloc: Global, book: &Book) -> Result<String, AllocError> {
        if self.stopped.load(Ordering::SeqCst) != 0 {
            return String::from_str(alloc, "no memory");
        }
        let replies = self.replies.load(Ordering::SeqCst);
        let count = book.events().len();
        let complete = completeness(book);
        format!(in alloc; "{count} events, {complete}, {replies} replies")
    }
}

/// Lets the seat's worker work with a new replica, and gives its replies.
pub(crate) fn replies_of_seat<R: Wait, C: Clock, G: Gate>(
    rt: &R,
    alloc: Global,
    board: &Board,
    seat: &mut Seat,
    whole: &Planned,
    clock: &C,
    gate: &G,
) -> Result<Done, AllocError>
    requires board { (seat.old.site ≡ board.now) × (board.now.schedule ≡ schedule_of whole.now.plan) }
    requires fresh { seat.old.seen ≡ [] }
    requires whole { IsWhole whole.now.graph whole.now.plan }
    ensures { IsSameSeat seat.old seat.new }
{
    whole.graph.known();
    let mut replica = Replica::new(&whole.graph)?;
    work(
        rt,
        alloc,
        board,
        seat,
        &whole.plan,
        &mut replica,
        clock,
        gate,
    )
}

/// Lets the seat's worker work with a new replica, and tells how many replies it has.
pub(crate) fn work_seat<R: Wait, C: Clock, G: Gate>(
    rt: &R,
    alloc: Global,
    board: &Board,
    seat: &mut Seat,
    whole: &Planned,
    clock: &C,
    gate: &G,
) -> Result<u64, AllocError>
    requires board { (seat.old.site ≡ board.now) × (board.now.schedule ≡ schedule_of whole.now.plan) }
    requires fresh { seat.old.seen ≡ [] }
    requires whole { IsWhole whole.now.graph whole.now.plan }
    ensures { IsSameSeat seat.old seat.new }
{
    let done = replies_of_seat(rt, alloc, board, seat, whole, clock, gate)?;
    Ok(done.as_slice().len() as u64)
}

// The seat after its worker's work, of which the tally takes what it tells.
fn worked<R: Wait>(
    rt: &R,
    alloc: Global,
    board: &Board,
    mut seat: Seat,
    whole: &Planned,
    clock: &FarClock,
    tally: &Tally,
) -> Seat
    requires board { (seat.site ≡ board.now) × (board.now.schedule ≡ schedule_of whole.now.plan) }
    requires fresh { seat.seen ≡ [] }
    requires whole { IsWhole whole.now.graph whole.now.plan }
    ensures { IsSameSeat seat result }
{
    tally.take(work_seat(rt, alloc, board, &mut seat, whole, clock, &OpenGate));
    seat
}

// Lets each worker work, in a thread of its own.
fn work_all<R: Threads + Wait + Sync>(
    rt: &R,
    alloc: Global,
    board: &Board,
    seats: Vec<Seat>,
    whole: &Planned,
    clock: &FarClock,
    tally: &Tally,
) -> Result<Vec<Seat>, AllocError>
    requires seats { AreSeats board.now seats.items }
    requires schedule { board.now.schedule ≡ schedule_of whole.now.plan }
    requires whole { IsWhole whole.now.graph whole.now.plan }
    ensures { IfOk result (λ v. AreInOrder board.now v.items) }
{
    thread::map_vec(
        rt,
        seats,
        &|seat: Seat| -> Seat
            requires { (seat.site ≡ board.now) × (board.now.schedule ≡ schedule_of whole.now.plan) × (seat.seen ≡ [])
                × IsWhole whole.now.graph whole.now.plan }
            ensures { IsSameSeat seat result }
        { worked(rt, alloc, board, seat, whole, clock, tally) },
    )
}

// Two workers run the plan at a board, at the moment.
fn told_pair<R: Threads + Wait + Sync>(
    rt: &R,
    alloc: Global,
    whole: &Planned,
    now: u64,
) -> Result<String, AllocError>
    requires { IsWhole whole.now.graph whole.now.plan }
{
    let (board, seats) = Board::make(alloc, whole.plan.schedule(), 2)?;
    let tally = Tally::new();
    let clock = FarClock::new(now);
    let seats = work_all(rt, alloc, &board, seats, whole, &clock, &tally)?;
    let book = closed_by_all(board, seats);
    tally.told(alloc, &book)
}

/// `pair NOW RATIO` or `pair NOW RATIO FREQUENCIES`
pub fn pair<R: Threads + Wait + Sync>(
    rt: &R,
    alloc: Global,
    files: &Files,
    rest: &str,
) -> Result<String, Flaw> {
    let (now, terms) = first_word(rest);
    let now = number_of(now)?;
    let whole = load_closed(alloc, files, terms)?;
    Ok(told_pair(rt, alloc, &whole, now)?)
}
