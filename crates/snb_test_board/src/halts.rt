//! Calls of a board at which a worker halts.

ghost use Rattle.std.specs.Prelude.{◌≡◌, [], false};
ghost use Rattle.snb_history.specs.History.{halted};
ghost use Rattle.snb_book.specs.Claims.{IfGo};
ghost use Rattle.snb_book.specs.Kept.{IsInHand};
ghost use Rattle.snb_board.specs.Boards.{mine};
ghost use Rattle.snb_test_board.specs.Crews.{IsSameSeat};

use crate::boards::{
    board_of_two, closed, finish_insert, is_insert, tell_claim, tell_history, told_book,
};
use snb_board::{Board, Seat};
use snb_book::Claim;
use snb_history::Schedule;
use snb_test_book::State;
use snb_test_script::{Flaw, Lines, first_word, number_of, small_number_of};
use std::alloc::Global;
use std::sync::Wait;

// Finishes what the claim gave to the seat's worker, if that is an insert.
fn finish_held<R: Wait>(
    rt: &R,
    board: &Board,
    schedule: &Schedule,
    seat: &mut Seat,
    claim: Claim,
    now: u64,
)
    requires board { (seat.old.site ≡ board.now) × (board.now.schedule ≡ schedule.now) }
    requires held { IfGo claim (λ ticket. (ticket.worker ≡ seat.old.worker) × IsInHand seat.old.seen ticket) }
    requires acts { IfGo claim (λ ticket. halted (mine seat.old) ticket.worker ≡ false) }
    ensures { IsSameSeat seat.old seat.new }
{
    if let Claim::Go { ticket } = claim {
        if is_insert(schedule, ticket.op) {
            board.finish(rt, seat, ticket, now, 0);
        }
    }
}

// Halts the worker that has in hand what the claim gave it.
fn halt_holder<R: Wait>(rt: &R, board: &Board, seat: &mut Seat, claim: Claim) -> Result<(), Flaw>
    requires board { seat.old.site ≡ board.now }
    requires held { IfGo claim (λ ticket. ticket.worker ≡ seat.old.worker) }
    requires acts { IfGo claim (λ ticket. halted (mine seat.old) ticket.worker ≡ false) }
    ensures { IsSameSeat seat.old seat.new }
{
    let Claim::Go { .. } = claim else {
        return Err(Flaw::OtherValue);
    };
    board.halt(rt, seat);
    Ok(())
}

// Finishes the insert that the claim gave to the seat's worker, which then halts.
fn finish_and_halt<R: Wait>(
    rt: &R,
    board: &Board,
    schedule: &Schedule,
    seat: &mut Seat,
    claim: Claim,
    now: u64,
) -> Result<(), Flaw>
    requires board { (seat.old.site ≡ board.now) × (board.now.schedule ≡ schedule.now) }
    requires held { IfGo claim (λ ticket. (ticket.worker ≡ seat.old.worker) × IsInHand seat.old.seen ticket) }
    requires acts { IfGo claim (λ ticket. halted (mine seat.old) ticket.worker ≡ false) }
    ensures { IsSameSeat seat.old seat.new }
{
    let Claim::Go { ticket } = claim else {
        return Err(Flaw::OtherValue);
    };
    if !is_insert(schedule, ticket.op) {
        return Err(Flaw::OtherValue);
    }
    board.finish(rt, seat, ticket, now, 0);
    board.halt(rt, seat);
    Ok(())
}

// Finishes so many inserts with the seat of worker 0, and tells what each of its claims answers.
fn tell_finished<R: Wait>(
    rt: &R,
    alloc: Global,
    board: &Board,
    schedule: &Schedule,
    zero: &mut Seat,
    count: u32,
    now: u64,
    answer: &mut Lines,
) -> Result<(), Flaw>
    requires schedule { board.now.schedule ≡ schedule.now }
    requires seat { zero.old.site ≡ board.now }
    ensures { IsSameSeat zero.old zero.new }
{
    for _ in 0..count {
        let claim = tell_claim(rt, alloc, board, zero, now, answer)?;
        finish_insert(rt, board, schedule, zero, claim, now)?;
    }
    Ok(())
}

// Lets worker 0 finish so many inserts and claim once more; then the worker `who` halts, and worker 0 finishes
// what it has in hand, if that is an insert and it is the other one that has halted. Tells what each claim
// answers, those of both workers after the halt too, and what has happened.
fn tell_halt<R: Wait>(
    rt: &R,
    alloc: Global,
    board: &Board,
    schedule: &Schedule,
    zero: &mut Seat,
    one: &mut Seat,
    count: u32,
    who: u32,
    now: u64,
    answer: &mut Lines,
) -> Result<(), Flaw>
    requires schedule { board.now.schedule ≡ schedule.now }
    requires seats { (zero.old.site ≡ board.now) × (one.old.site ≡ board.now) }
    requires fresh { one.old.seen ≡ [] }
    ensures zero { IsSameSeat zero.old zero.new }
    ensures one { IsSameSeat one.old one.new }
{
    tell_finished(rt, alloc, board, schedule, zero, count, now, answer)?;
    let claim = tell_claim(rt, alloc, board, zero, now, answer)?;
    if who == 0 {
        halt_holder(rt, board, zero, claim)?;
    } else {
        board.halt(rt, one);
        finish_held(rt, board, schedule, zero, claim, now);
    }
    tell_claim(rt, alloc, board, zero, now, answer)?;
    tell_claim(rt, alloc, board, one, now, answer)?;
    tell_history(rt, alloc, board, zero, answer)
}

// Tells that of a board of two workers, and then how many events its closed book has, whether it is complete,
// and the verdict on them.
fn told_halt<R: Wait>(
    rt: &R,
    alloc: Global,
    schedule: &Schedule,
    count: u32,
    who: u32,
    now: u64,
) -> Result<String, Flaw> {
    let (board, mut zero, mut one) = board_of_two(alloc, schedule)?;
    let mut answer = Lines::new(alloc);
    tell_halt(
        rt,
        alloc,
        &board,
        schedule,
        &mut zero,
        &mut one,
        count,
        who,
        now,
        &mut answer,
    )?;
    let book = closed(alloc, board, zero, one)?;
    let verdict = told_book(alloc, &book)?;
    answer.add(verdict.as_str())?;
    Ok(answer.told())
}

/// `halt_after COUNT WHO NOW`
pub fn halt_after<R: Wait>(
    rt: &R,
    alloc: Global,
    state: &State,
    rest: &str,
) -> Result<String, Flaw> {
    let (count, rest) = first_word(rest);
    let (who, now) = first_word(rest);
    let count = small_number_of(count)?;
    let who = small_number_of(who)?;
    let now = number_of(now)?;
    match &state.schedule {
        Some(schedule) => told_halt(rt, alloc, schedule, count, who, now),
        None => Err(Flaw::OtherValue),
    }
}

// Lets worker 0 finish so many inserts, and one more, after which it halts. Tells what each claim answers, those
// of both workers after the halt too, and what has happened.
fn tell_halt_at_end<R: Wait>(
    rt: &R,
    alloc: Global,
    board: &Board,
    schedule: &Schedule,
    zero: &mut Seat,
    one: &mut Seat,
    count: u32,
    now: u64,
    answer: &mut Lines,
) -> Result<(), Flaw>
    requires schedule { board.now.schedule ≡ schedule.now }
    requires seats { (zero.old.site ≡ board.now) × (one.old.site ≡ board.now) }
    ensures zero { IsSameSeat zero.old zero.new }
    ensures one { IsSameSeat one.old one.new }
{
    tell_finished(rt, alloc, board, schedule, zero, count, now, answer)?;
    let claim = tell_claim(rt, alloc, board, zero, now, answer)?;
    finish_and_halt(rt, board, schedule, zero, claim, now)?;
    tell_claim(rt, alloc, board, zero, now, answer)?;
    tell_claim(rt, alloc, board, one, now, answer)?;
    tell_history(rt, alloc, board, zero, answer)
}

// Tells that of a board of two workers, and then what `told_book` says of its closed book.
fn told_halt_at_end<R: Wait>(
    rt: &R,
    alloc: Global,
    schedule: &Schedule,
    count: u32,
    now: u64,
) -> Result<String, Flaw> {
    let (board, mut zero, mut one) = board_of_two(alloc, schedule)?;
    let mut answer = Lines::new(alloc);
    tell_halt_at_end(
        rt,
        alloc,
        &board,
        schedule,
        &mut zero,
        &mut one,
        count,
        now,
        &mut answer,
    )?;
    let book = closed(alloc, board, zero, one)?;
    let verdict = told_book(alloc, &book)?;
    answer.add(verdict.as_str())?;
    Ok(answer.told())
}

/// `halt_at_end COUNT NOW`
pub fn halt_at_end<R: Wait>(
    rt: &R,
    alloc: Global,
    state: &State,
    rest: &str,
) -> Result<String, Flaw> {
    let (count, now) = first_word(rest);
    let count = small_number_of(count)?;
    let now = number_of(now)?;
    match &state.schedule {
        Some(schedule) => told_halt_at_end(rt, alloc, schedule, count, now),
        None => Err(Flaw::OtherValue),
    }
}

// Halts both workers, worker `first` before the other one, while worker 0 has in hand what its claim gave it. Tells
// what each claim answers, those of both workers after the halts too, and what has happened.
fn tell_halt_both<R: Wait>(
    rt: &R,
    alloc: Global,
    board: &Board,
    zero: &mut Seat,
    one: &mut Seat,
    first: u32,
    now: u64,
    answer: &mut Lines,
) -> Result<(), Flaw>
    requires seats { (zero.old.site ≡ board.now) × (one.old.site ≡ board.now) }
    requires fresh { one.old.seen ≡ [] }
    ensures zero { IsSameSeat zero.old zero.new }
    ensures one { IsSameSeat one.old one.new }
{
    let claim = tell_claim(rt, alloc, board, zero, now, answer)?;
    if first == 0 {
        halt_holder(rt, board, zero, claim)?;
        board.halt(rt, one);
    } else {
        board.halt(rt, one);
        halt_holder(rt, board, zero, claim)?;
    }
    tell_claim(rt, alloc, board, zero, now, answer)?;
    tell_claim(rt, alloc, board, one, now, answer)?;
    tell_history(rt, alloc, board, zero, answer)
}

// Tells that of a board of two workers, and then what `told_book` says of its closed book.
fn told_halt_both<R: Wait>(
    rt: &R,
    alloc: Global,
    schedule: &Schedule,
    first: u32,
    now: u64,
) -> Result<String, Flaw> {
    let (board, mut zero, mut one) = board_of_two(alloc, schedule)?;
    let mut answer = Lines::new(alloc);
    tell_halt_both(
        rt,
        alloc,
        &board,
        &mut zero,
        &mut one,
        first,
        now,
        &mut answer,
    )?;
    let book = closed(alloc, board, zero, one)?;
    let verdict = told_book(alloc, &book)?;
    answer.add(verdict.as_str())?;
    Ok(answer.told())
}

/// `halt_both FIRST NOW`
pub fn halt_both<R: Wait>(
    rt: &R,
    alloc: Global,
    state: &State,
    rest: &str,
) -> Result<String, Flaw> {
    let (first, now) = first_word(rest);
    let first = small_number_of(first)?;
    let now = number_of(now)?;
    match &state.schedule {
        Some(schedule) => told_halt_both(rt, alloc, schedule, first, now),
        None => Err(Flaw::OtherValue),
    }
}
