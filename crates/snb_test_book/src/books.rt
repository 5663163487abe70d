//! Calls of a book.

ghost use Rattle.std.specs.Prelude.{◌≡◌, IsTrue};
ghost use Rattle.snb_history.specs.Rules.{IsFront, MayAct};
ghost use Rattle.snb_book.specs.Kept.{IsInHand};

use crate::event_words::{has_halted, is_finished, starts_at};
use crate::state::State;
use snb_book::{Book, Claim, Ticket};
use snb_history::{Event, hand_is_theirs};
use snb_schema::MAX_WORKERS;
use snb_test_script::{
    Flaw, List, first_word, nothing, number_of, small_number_of, told, told_whether,
};
use std::alloc::{AllocError, Global};

/// `book WORKERS`
pub fn make_book(alloc: Global, state: &mut State, rest: &str) -> Result<String, Flaw> {
    let workers = small_number_of(rest)?;
    if workers == 0 || workers > MAX_WORKERS {
        return Err(Flaw::OtherValue);
    }
    match &state.schedule {
        Some(schedule) => {
            let book = Book::make(alloc, schedule, workers)?;
            state.book = Some(book);
            told(alloc, "")
        }
        None => Err(Flaw::OtherValue),
    }
}

/// What a claim answers.
pub fn told_claim(alloc: Global, claim: Claim) -> Result<String, AllocError> {
    match claim {
        Claim::Halted => String::from_str(alloc, "halted"),
        Claim::AllStarted => String::from_str(alloc, "all started"),
        Claim::Busy { op, holder } => format!(in alloc; "busy {op} {holder}"),
        Claim::NotDue { until } => format!(in alloc; "not due {until}"),
        Claim::Go { ticket } => {
            let Ticket { op, worker, start } = ticket;
            format!(in alloc; "go {op} {worker} {start}")
        }
        Claim::Blocked {
            op,
            needs,
            completion,
        } => format!(in alloc; "blocked {op} {needs} {completion}"),
    }
}

/// `claim WORKER NOW`
pub fn claim(alloc: Global, state: &mut State, rest: &str) -> Result<String, Flaw> {
    let (worker, now) = first_word(rest);
    let worker = small_number_of(worker)?;
    let now = number_of(now)?;
    match &mut state.book {
        Some(book) => {
            if worker >= book.workers() {
                return Err(Flaw::OtherValue);
            }
            Ok(told_claim(alloc, book.claim(worker, now))?)
        }
        None => Err(Flaw::OtherValue),
    }
}

// Whether the worker is one of the book's and hasn't halted.
fn may_act(book: &Book, worker: u32) -> bool
    ensures { IsTrue result → MayAct book.now.workers book.now.history worker }
{
    worker < book.workers() && !has_halted(book.events(), worker)
}

// Whether the ticket's worker has its operation in hand, by that Start.
fn is_in_hand(book: &Book, ticket: Ticket) -> bool
    ensures { IsTrue result → IsInHand book.now.history ticket }
{
    hand_is_theirs();
    let events = book.events();
    starts_at(events, ticket.start, ticket.op, ticket.worker) && !is_finished(events, ticket.op)
}

// Whether a Finish of the ticket's operation, which is in hand, may have this front.
fn is_front(book: &Book, ticket: Ticket, front: u32) -> bool
    requires { IsInHand book.now.history ticket }
    ensures { IsTrue result → IsFront book.now.schedule book.now.history ticket.op front }
{
    let steps = book.schedule().steps();
    if ticket.op as usize >= steps.len() {
        return false;
    }
    if steps[ticket.op as usize].query {
        ticket.start < front && front as usize <= book.events().len()
    } else {
        front == 0
    }
}

// Finishes the ticket's operation, where the worker has it in hand and the front is one.
fn finish_ticket(book: &mut Book, ticket: Ticket, now: u64, front: u32) -> Result<(), Flaw> {
    if !may_act(book, ticket.worker) || !is_in_hand(book, ticket) {
        return Err(Flaw::OtherValue);
    }
    if !is_front(book, ticket, front) {
        return Err(Flaw::OtherValue);
    }
    book.finish(ticket, now, front);
    Ok(())
}

/// `finish OPERATION WORKER START NOW FRONT`
pub fn finish(alloc: Global, state: &mut State, rest: &str) -> Result<String, Flaw> {
    let (op, rest) = first_word(rest);
    let (worker, rest) = first_word(rest);
    let (start, rest) = first_word(rest);
    let (now, front) = first_word(rest);
    let ticket = Ticket {
        op: small_number_of(op)?,
        worker: small_number_of(worker)?,
        start: small_number_of(start)?,
    };
    let now = number_of(now)?;
    let front = small_number_of(front)?;
    match &mut state.book {
        Some(book) => finish_ticket(book, ticket, now, front)?,
        None => return Err(Flaw::OtherValue),
    }
    told(alloc, "")
}

/// `halt WORKER`
pub fn halt(alloc: Global, state: &mut State, rest: &str) -> Result<String, Flaw> {
    let worker = small_number_of(rest)?;
    match &mut state.book {
        Some(book) => {
            if !may_act(book, worker) {
                return Err(Flaw::OtherValue);
            }
            book.halt(worker);
            told(alloc, "")
        }
        None => Err(Flaw::OtherValue),
    }
}

// The book, once it is made.
fn book_of(state: &State) -> Result<&Book, Flaw> {
    match &state.book {
        Some(book) => Ok(book),
        None => Err(Flaw::OtherValue),
    }
}

/// `complete`
pub fn complete(alloc: Global, state: &State, rest: &str) -> Result<String, Flaw> {
    nothing(rest)?;
    told_whether(alloc, book_of(state)?.is_complete())
}

/// `completion`
pub fn completion(alloc: Global, state: &State, rest: &str) -> Result<String, Flaw> {
    nothing(rest)?;
    let completion = book_of(state)?.completion();
    Ok(format!(in alloc; "{completion}")?)
}

// An event.
fn told_event(alloc: Global, event: &Event) -> Result<String, AllocError> {
    match event {
        Event::Start { op, worker, at } => format!(in alloc; "start {op} {worker} {at}"),
        Event::Finish {
            op,
            worker,
            at,
            front,
        } => format!(in alloc; "finish {op} {worker} {at} {front}"),
        Event::Halt { worker } => format!(in alloc; "halt {worker}"),
    }
}

/// The events of a history.
pub fn told_events(alloc: Global, events: &[Event]) -> Result<String, Flaw> {
    let mut list = List::new(alloc);
    for event in events {
        let one = told_event(alloc, event)?;
        list.add(one.as_str())?;
    }
    list.told(alloc)
}

/// `events`
pub fn events(alloc: Global, state: &State, rest: &str) -> Result<String, Flaw> {
    nothing(rest)?;
    told_events(alloc, book_of(state)?.events())
}
