//! The calls of this crate by their words. To add one, write a function for it, and name it here.

use crate::alone::{alone, by_itself};
use crate::behind::alone_behind;
use crate::held::alone_held;
use crate::meet::meet;
use crate::own::own;
use crate::pair::pair;
use crate::steps::steps;
use snb_test_script::{Files, Flaw};
use std::alloc::Global;
use std::sync::Wait;
use std::thread::Threads;

// The answer of a call.
fn answer_of<R: Threads + Wait + Sync>(
    rt: &R,
    alloc: Global,
    files: &Files,
    call: &str,
    rest: &str,
) -> Result<String, Flaw> {
    match call {
        "alone" => alone(rt, alloc, files, rest),
        "by_itself" => by_itself(rt, alloc, files, rest),
        "alone_behind" => alone_behind(rt, alloc, files, rest),
        "alone_held" => alone_held(rt, alloc, files, rest),
        "meet" => meet(rt, alloc, files, rest),
        "own" => own(rt, alloc, files, rest),
        "pair" => pair(rt, alloc, files, rest),
        "steps" => steps(rt, alloc, rest),
        _ => Err(Flaw::NoWord),
    }
}

/// Makes the call of this word, over the files as they are, and tells what it answers; None where there is
/// no such call. Nothing is left of one call for the next.
pub fn answer<R: Threads + Wait + Sync>(
    rt: &R,
    alloc: Global,
    files: &Files,
    call: &str,
    rest: &str,
) -> Result<Option<String>, Flaw> {
    match answer_of(rt, alloc, files, call, rest) {
        Ok(came) => Ok(Some(came)),
        Err(Flaw::NoWord) => Ok(None),
        Err(flaw) => Err(flaw),
    }
}
