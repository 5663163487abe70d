//! The calls of this crate by their words. To add one, write a function for it, and name it here.

use crate::boards::{crew, fresh_word, two_seats, verdict};
use crate::halts::{halt_after, halt_at_end, halt_both};
use snb_test_book::State;
use snb_test_script::Flaw;
use std::alloc::Global;
use std::sync::Wait;
use std::thread::Threads;

// The answer of a call.
fn answer_of<R: Threads + Wait + Sync>(
    rt: &R,
    alloc: Global,
    state: &State,
    call: &str,
    rest: &str,
) -> Result<String, Flaw> {
    match call {
        "two_seats" => two_seats(rt, alloc, state, rest),
        "crew" => crew(rt, alloc, state, rest),
        "verdict" => verdict(alloc, state, rest),
        "fresh_word" => fresh_word(rt, alloc, state, rest),
        "halt_at_end" => halt_at_end(rt, alloc, state, rest),
        "halt_after" => halt_after(rt, alloc, state, rest),
        "halt_both" => halt_both(rt, alloc, state, rest),
        _ => Err(Flaw::NoWord),
    }
}

/// Makes the call of this word, over the schedule that the calls before it made, and tells what it
/// answers; None where there is no such call.
pub fn answer<R: Threads + Wait + Sync>(
    rt: &R,
    alloc: Global,
    state: &State,
    call: &str,
    rest: &str,
) -> Result<Option<String>, Flaw> {
    match answer_of(rt, alloc, state, call, rest) {
        Ok(came) => Ok(Some(came)),
        Err(Flaw::NoWord) => Ok(None),
        Err(flaw) => Err(flaw),
    }
}
