//! The calls of this crate by their words. To add one, write a function for it, and name it here.

use crate::books::{claim, complete, completion, events, finish, halt, make_book};
use crate::plans::plan;
use crate::sources::sources;
use crate::state::State;
use crate::times::{end, flags_of, global, initiated, local, make_times, start};
use snb_test_script::{Files, Flaw};
use std::alloc::Global;

// The answer of a call of a book.
fn answer_of_book(
    alloc: Global,
    state: &mut State,
    call: &str,
    rest: &str,
) -> Result<String, Flaw> {
    match call {
        "book" => make_book(alloc, state, rest),
        "claim" => claim(alloc, state, rest),
        "finish" => finish(alloc, state, rest),
        "halt" => halt(alloc, state, rest),
        "complete" => complete(alloc, state, rest),
        "completion" => completion(alloc, state, rest),
        "events" => events(alloc, state, rest),
        _ => answer_of_times(alloc, state, call, rest),
    }
}

// The answer of a call of times.
fn answer_of_times(
    alloc: Global,
    state: &mut State,
    call: &str,
    rest: &str,
) -> Result<String, Flaw> {
    match call {
        "times" => make_times(alloc, state, rest),
        "start" => start(alloc, state, rest),
        "end" => end(alloc, state, rest),
        "global_completion" => global(alloc, state, rest),
        "local_completion" => local(alloc, state, rest),
        "local_initiated" => initiated(alloc, state, rest),
        "started" | "finished" => flags_of(alloc, state, call, rest),
        _ => Err(Flaw::NoWord),
    }
}

/// Makes the call of this word, over the files and what the calls before it made, and tells what it
/// answers; None where there is no such call.
pub fn answer(
    alloc: Global,
    state: &mut State,
    files: &Files,
    call: &str,
    rest: &str,
) -> Result<Option<String>, Flaw> {
    let answered = match call {
        "schedule" => plan(alloc, state, files, rest),
        "sources" => sources(alloc, files, rest),
        _ => answer_of_book(alloc, state, call, rest),
    };
    match answered {
        Ok(came) => Ok(Some(came)),
        Err(Flaw::NoWord) => Ok(None),
        Err(flaw) => Err(flaw),
    }
}
