//! Calls of a board, each of which makes one and closes it.

ghost use Rattle.std.specs.Prelude.{◌≡◌, ◌≤◌, ℕ, [], IfOk, IsTrue, List, false};
ghost use Rattle.snb_history.specs.declared.event.Event.{Event};
ghost use Rattle.snb_schema.specs.declared.limits.TheConstants.{MAX_WORKERS};
ghost use Rattle.snb_history.specs.History.{halted};
ghost use Rattle.snb_history.specs.Rules.{IsFront};
ghost use Rattle.snb_book.specs.Claims.{IfGo};
ghost use Rattle.snb_book.specs.Kept.{IsInHand};
ghost use Rattle.snb_board.specs.Boards.{mine, AreSeats};
ghost use Rattle.snb_test_board.specs.Crews.{AreInOrder, IsSameSeat};

use snb_auditor::{Verdict, audit_all};
use snb_board::{Board, Seat};
use snb_book::{Book, Claim};
use snb_history::Schedule;
use snb_schema::MAX_WORKERS;
use snb_test_book::{State, told_claim, told_events};
use snb_test_script::{Flaw, Lines, first_word, nothing, number_of, small_number_of};
use std::alloc::{AllocError, Global};
use std::sync::Wait;
use std::thread;
use std::thread::Threads;

/// Whether the operation is an insert, whose front is 0.
pub fn is_insert(schedule: &Schedule, op: u32) -> bool
    ensures { IsTrue result → (h : List Event) → IsFront schedule.now h op 0 }
{
    let steps = schedule.steps();
    if op as usize >= steps.len() {
        return false;
    }
    !steps[op as usize].query
}

/// Whether every operation of the book is finished, and nobody has halted.
pub fn completeness(book: &Book) -> &'static str {
    if book.is_complete() {
        "complete"
    } else {
        "incomplete"
    }
}

/// A board of two workers with its seats.
pub fn board_of_two(alloc: Global, schedule: &Schedule) -> Result<(Board, Seat, Seat), AllocError>
    ensures board { IfOk result (λ r. (r.0.schedule ≡ schedule.now) × (r.1.site ≡ r.0) × (r.2.site ≡ r.0)) }
    ensures workers { IfOk result (λ r. (r.0.workers ≡ 2) × (r.1.worker ≡ 0) × (r.2.worker ≡ 1)) }
    ensures fresh { IfOk result (λ r. (r.1.seen ≡ []) × (r.2.seen ≡ [])) }
{
    let (board, mut seats) = Board::make(alloc, schedule, 2)?;
    let Some(one) = seats.pop() else {
        return Err(AllocError);
    };
    let Some(zero) = seats.pop() else {
        return Err(AllocError);
    };
    Ok((board, zero, one))
}

// The book of a board of two workers.
pub(crate) fn closed(alloc: Global, board: Board, zero: Seat, one: Seat) -> Result<Book, AllocError>
    requires board { (zero.site ≡ board) × (one.site ≡ board) }
    requires workers { (board.workers ≡ 2) × (zero.worker ≡ 0) × (one.worker ≡ 1) }
    ensures { IfOk result (λ book. book.workers ≡ 2) }
{
    let mut seats = Vec::new(alloc);
    seats.push(zero)?;
    seats.push(one)?;
    Ok(board.close(seats))
}

// Claims for a seat, and tells what the claim answers.
pub(crate) fn tell_claim<R: Wait>(
    rt: &R,
    alloc: Global,
    board: &Board,
    seat: &mut Seat,
    now: u64,
    answer: &mut Lines,
) -> Result<Claim, AllocError>
    requires { seat.old.site ≡ board.now }
    ensures same { IsSameSeat seat.old seat.new }
    ensures held { IfOk result
        (λ claim. IfGo claim (λ ticket. (ticket.worker ≡ seat.old.worker) × IsInHand seat.new.seen ticket)) }
    ensures acts { IfOk result (λ claim. IfGo claim (λ ticket. halted (mine seat.new) ticket.worker ≡ false)) }
{
    let claim = board.claim(rt, seat, now);
    let line = told_claim(alloc, claim)?;
    answer.add(line.as_str())?;
    Ok(claim)
}

// Finishes what the claim gave to the seat's worker, where that is an insert.
pub(crate) fn finish_insert<R: Wait>(
    rt: &R,
    board: &Board,
    schedule: &Schedule,
    seat: &mut Seat,
    claim: Claim,
    now: u64,
) -> Result<(), Flaw>
    requires board { (seat.old.site ≡ board.now) × (board.now.schedule ≡ schedule.now) }
    requires held { IfGo claim (λ ticket. (ticket.worker ≡ seat.old.worker) × IsInHand seat.old.seen ticket) }
    requires acts { IfGo claim (λ ticket. halted (mine seat.old) ticket.worker ≡ false) }
    ensures { IsSameSeat seat.old seat.new }
{
    let Claim::Go { ticket } = claim else {
        return Err(Flaw::OtherValue);
    };
    if !is_insert(schedule, ticket.op) {
        return Err(Flaw::OtherValue);
    }
    board.finish(rt, seat, ticket, now, 0);
    Ok(())
}

// Tells how many events have happened, and which.
pub(crate) fn tell_history<R: Wait>(
    rt: &R,
    alloc: Global,
    board: &Board,
    seat: &mut Seat,
    answer: &mut Lines,
) -> Result<(), Flaw>
    requires { seat.old.site ≡ board.now }
    ensures { IsSameSeat seat.old seat.new }
{
    let mut events = Vec::new(alloc);
    let count = board.catch_up(rt, seat, 0, &mut events)?;
    let line = format!(in alloc; "{count} events")?;
    answer.add(line.as_str())?;
    let line = told_events(alloc, &events)?;
    answer.add(line.as_str())?;
    Ok(())
}

// Makes the calls of two seats one after another, and tells what they are answered.
fn tell_two<R: Wait>(
    rt: &R,
    alloc: Global,
    board: &Board,
    schedule: &Schedule,
    zero: &mut Seat,
    one: &mut Seat,
    answer: &mut Lines,
) -> Result<(), Flaw>
    requires schedule { board.now.schedule ≡ schedule.now }
    requires seats { (zero.old.site ≡ board.now) × (one.old.site ≡ board.now) }
    ensures zero { IsSameSeat zero.old zero.new }
    ensures one { IsSameSeat one.old one.new }
{
    let claim = tell_claim(rt, alloc, board, zero, 0, answer)?;
    tell_claim(rt, alloc, board, one, 1000, answer)?;
    finish_insert(rt, board, schedule, zero, claim, 1000)?;
    tell_claim(rt, alloc, board, one, 1000, answer)?;
    tell_history(rt, alloc, board, zero, answer)
}

// Tells what two seats are answered, and whether all is finished then.
fn told_two<R: Wait>(rt: &R, alloc: Global, schedule: &Schedule) -> Result<String, Flaw> {
    let (board, mut zero, mut one) = board_of_two(alloc, schedule)?;
    let mut answer = Lines::new(alloc);
    tell_two(
        rt,
        alloc,
        &board,
        schedule,
        &mut zero,
        &mut one,
        &mut answer,
    )?;
    let book = closed(alloc, board, zero, one)?;
    answer.add(completeness(&book))?;
    Ok(answer.told())
}

/// `two_seats`
pub fn two_seats<R: Wait>(
    rt: &R,
    alloc: Global,
    state: &State,
    rest: &str,
) -> Result<String, Flaw> {
    nothing(rest)?;
    match &state.schedule {
        Some(schedule) => told_two(rt, alloc, schedule),
        None => Err(Flaw::OtherValue),
    }
}

// What the seat of worker 1, which sees nothing, is told of the completion time before worker 0 has claimed and
// finished an insert, and after that.
fn told_word<R: Wait>(rt: &R, alloc: Global, schedule: &Schedule) -> Result<String, Flaw> {
    let (board, mut zero, mut one) = board_of_two(alloc, schedule)?;
    let before = board.completion(&mut one);
    let claim = board.claim(rt, &mut zero, 0);
    finish_insert(rt, &board, schedule, &mut zero, claim, 1000)?;
    let after = board.completion(&mut one);
    Ok(format!(in alloc; "{before}, then {after}")?)
}

/// `fresh_word`
pub fn fresh_word<R: Wait>(
    rt: &R,
    alloc: Global,
    state: &State,
    rest: &str,
) -> Result<String, Flaw> {
    nothing(rest)?;
    match &state.schedule {
        Some(schedule) => told_word(rt, alloc, schedule),
        None => Err(Flaw::OtherValue),
    }
}

// Claims at the moment and finishes what the worker was given, until all is started, somebody has halted,
// what comes next isn't due, or it is a read.
fn work<R: Wait>(rt: &R, board: &Board, schedule: &Schedule, seat: &mut Seat, now: u64)
    requires { (seat.old.site ≡ board.now) × (board.now.schedule ≡ schedule.now) }
    ensures { IsSameSeat seat.old seat.new }
{
    for _ in rt.forever() {
        match board.claim(rt, seat, now) {
            Claim::AllStarted | Claim::Halted | Claim::NotDue { .. } => return,
            Claim::Busy { .. } | Claim::Blocked { .. } => thread::yield_now(),
            Claim::Go { ticket } => {
                if !is_insert(schedule, ticket.op) {
                    return;
                }
                board.finish(rt, seat, ticket, now, 0);
            }
        }
    }
    unreachable!()
}

// Lets each worker work at the moment, in a thread of its own.
fn work_all<R: Threads + Wait + Sync>(
    rt: &R,
    board: &Board,
    schedule: &Schedule,
    seats: Vec<Seat>,
    now: u64,
) -> Result<Vec<Seat>, AllocError>
    requires seats { AreSeats board.now seats.items }
    requires schedule { board.now.schedule ≡ schedule.now }
    ensures { IfOk result (λ v. AreInOrder board.now v.items) }
{
    thread::map_vec(
        rt,
        seats,
        &|mut seat: Seat| -> Seat
            requires { (seat.site ≡ board.now) × (board.now.schedule ≡ schedule.now) }
            ensures { IsSameSeat seat result }
        {
            work(rt, board, schedule, &mut seat, now);
            seat
        },
    )
}

/// The book of a board, of which each worker's seat is back, in their order.
pub fn closed_by_all(board: Board, seats: Vec<Seat>) -> Book
    requires { AreInOrder board seats.items }
    ensures { result.workers ≡ board.workers }
{
    board.close(seats)
}

// The book that so many workers leave.
fn book_of_crew<R: Threads + Wait + Sync>(
    rt: &R,
    alloc: Global,
    schedule: &Schedule,
    workers: u32,
    now: u64,
) -> Result<Book, AllocError>
    requires some { 1 ≤ workers }
    requires few { workers ≤ MAX_WORKERS }
    ensures { IfOk result (λ book. book.workers ≡ workers) }
{
    let (board, seats) = Board::make(alloc, schedule, workers)?;
    let seats = work_all(rt, &board, schedule, seats, now)?;
    Ok(closed_by_all(board, seats))
}

// The verdict of the auditor.
fn told_verdict(alloc: Global, verdict: Verdict) -> Result<String, AllocError> {
    match verdict {
        Verdict::Violated { .. } => String::from_str(alloc, "violated"),
        Verdict::Halted { worker } => format!(in alloc; "halted {worker}"),
        Verdict::Incomplete { .. } => String::from_str(alloc, "not all finished"),
        Verdict::TooLate { on_time, all } => format!(in alloc; "late {on_time} of {all}"),
        Verdict::Accepted { on_time, all } => format!(in alloc; "accepted {on_time} of {all}"),
    }
}

// How many events the book has, whether it is complete, and the verdict on its events.
pub(crate) fn told_book(alloc: Global, book: &Book) -> Result<String, Flaw>
    requires some { 1 ≤ book.now.workers }
    requires few { book.now.workers ≤ MAX_WORKERS }
{
    let events = book.events();
    let count = events.len();
    let complete = completeness(book);
    let verdict = audit_all(alloc, book.schedule(), book.workers(), events)?;
    let verdict = told_verdict(alloc, verdict)?;
    let verdict = verdict.as_str();
    Ok(format!(in alloc; "{count} events, {complete}, {verdict}")?)
}

/// `verdict`
pub fn verdict(alloc: Global, state: &State, rest: &str) -> Result<String, Flaw> {
    nothing(rest)?;
    let Some(book) = &state.book else {
        return Err(Flaw::OtherValue);
    };
    let workers = book.workers();
    if workers == 0 || workers > MAX_WORKERS {
        return Err(Flaw::OtherValue);
    }
    told_book(alloc, book)
}

/// `crew WORKERS NOW`
pub fn crew<R: Threads + Wait + Sync>(
    rt: &R,
    alloc: Global,
    state: &State,
    rest: &str,
) -> Result<String, Flaw> {
    let (workers, now) = first_word(rest);
    let workers = small_number_of(workers)?;
    let now = number_of(now)?;
    if workers == 0 || workers > MAX_WORKERS {
        return Err(Flaw::OtherValue);
    }
    match &state.schedule {
        Some(schedule) => told_book(alloc, &book_of_crew(rt, alloc, schedule, workers, now)?),
        None => Err(Flaw::OtherValue),
    }
}
