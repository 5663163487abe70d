//! The calls of this crate by their words. To add one, write a function for it, and name it here.

use crate::distances::distance;
use crate::limits::{dataset, lanes, parameters};
use crate::posts::posts;
use crate::state::State;
use snb_test_script::{Files, Flaw};
use std::alloc::Global;

/// Makes the call of this word, over the files and what the calls before it made, and tells what it
/// answers; None where there is no such call.
pub fn answer(
    alloc: Global,
    state: &mut State,
    files: &Files,
    call: &str,
    rest: &str,
) -> Result<Option<String>, Flaw> {
    match call {
        "posts" => Ok(Some(posts(alloc, files, rest)?)),
        "dataset" => Ok(Some(dataset(alloc, files, rest)?)),
        "lanes" => Ok(Some(lanes(alloc, files, rest)?)),
        "parameters" => Ok(Some(parameters(alloc, files, rest)?)),
        _ => {
            if let Some(answer) = state.graphs.answer(alloc, call, rest)? {
                return Ok(Some(answer));
            }
            distance(alloc, state, call, rest)
        }
    }
}
