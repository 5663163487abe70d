//! The calls in which one worker works on this thread, at a board of two or at one of its own.

ghost use Rattle.snb_test_workers.specs.Wholes.{IsWhole};

use crate::closed::{Planned, load_closed};
use crate::pair::work_seat;
use snb_history::Event;
use snb_own_reads::run_alone;
use snb_test_board::board_of_two;
use snb_test_book::told_events;
use snb_test_script::{Files, Flaw, Given, Lines, first_word, number_of};
use std::alloc::Global;
use std::sync::Wait;

/// The moments that the text is, with a comma between two.
pub(crate) fn moments_of(alloc: Global, text: &str) -> Result<Vec<u64>, Flaw> {
    let mut moments = Vec::new(alloc);
    for moment in text.split(',') {
        moments.push(number_of(moment)?)?;
    }
    Ok(moments)
}

/// What was noted of the clock and the gate of a worker, what has happened, and how many replies it has.
pub(crate) fn told_work(
    alloc: Global,
    notes: &str,
    events: &[Event],
    replies: u64,
) -> Result<String, Flaw> {
    let mut answer = Lines::new(alloc);
    for note in notes.lines() {
        answer.add(note)?;
    }
    let line = told_events(alloc, events)?;
    answer.add(line.as_str())?;
    let line = format!(in alloc; "{replies} replies")?;
    answer.add(line.as_str())?;
    Ok(answer.told())
}

// Worker 0 works, at a clock that shows these moments.
fn told_alone<R: Wait>(
    rt: &R,
    alloc: Global,
    whole: &Planned,
    moments: &[u64],
) -> Result<String, Flaw>
    requires { IsWhole whole.now.graph whole.now.plan }
{
    let (board, mut zero, _one) = board_of_two(alloc, whole.plan.schedule())?;
    let given = Given::new(alloc, moments);
    let replies = work_seat(rt, alloc, &board, &mut zero, whole, &given, &given)?;
    let mut events = Vec::new(alloc);
    board.catch_up(rt, &mut zero, 0, &mut events)?;
    let notes = given.notes();
    told_work(alloc, notes.as_str(), &events, replies)
}

/// `alone MOMENTS RATIO` or `alone MOMENTS RATIO FREQUENCIES`
pub fn alone<R: Wait>(rt: &R, alloc: Global, files: &Files, rest: &str) -> Result<String, Flaw> {
    let (moments, terms) = first_word(rest);
    let moments = moments_of(alloc, moments)?;
    let whole = load_closed(alloc, files, terms)?;
    told_alone(rt, alloc, &whole, &moments)
}

// One worker runs the plan alone, at a clock that shows these moments.
fn told_by_itself<R: Wait>(
    rt: &R,
    alloc: Global,
    whole: &Planned,
    moments: &[u64],
) -> Result<String, Flaw>
    requires { IsWhole whole.now.graph whole.now.plan }
{
    let given = Given::new(alloc, moments);
    let outcome = run_alone(rt, alloc, &whole.plan, &whole.graph, &given, &given)?;
    let notes = given.notes();
    let replies = outcome.replies.as_slice().len() as u64;
    told_work(alloc, notes.as_str(), outcome.events.as_slice(), replies)
}

/// `by_itself MOMENTS RATIO` or `by_itself MOMENTS RATIO FREQUENCIES`
pub fn by_itself<R: Wait>(
    rt: &R,
    alloc: Global,
    files: &Files,
    rest: &str,
) -> Result<String, Flaw> {
    let (moments, terms) = first_word(rest);
    let moments = moments_of(alloc, moments)?;
    let whole = load_closed(alloc, files, terms)?;
    told_by_itself(rt, alloc, &whole, &moments)
}
