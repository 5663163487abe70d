//! The calls of this crate by their words. To add one, write a function for it, and name it here.

use crate::applied::apply_to_copy;
use crate::cases::graph_of;
use crate::connector::{asked, checked};
use crate::steps::stepped;
use crate::summaries::summary_copied;
use crate::walks::walked;
use snb_test_script::{Files, Flaw, first_word, number_of};
use std::alloc::Global;

// `handler FOLDER PERSON`
fn handler(alloc: Global, files: &Files, rest: &str) -> Result<String, Flaw> {
    let (folder, person) = first_word(rest);
    let graph = graph_of(alloc, files, folder)?;
    asked(alloc, &graph, number_of(person)?)
}

// `handlers FOLDER FILE`
fn handlers(alloc: Global, files: &Files, rest: &str) -> Result<String, Flaw> {
    let (folder, file) = first_word(rest);
    let graph = graph_of(alloc, files, folder)?;
    checked(alloc, graph, files.bytes(file)?)
}

// `steps_of FOLDER FILE`
fn steps_of(alloc: Global, files: &Files, rest: &str) -> Result<String, Flaw> {
    let (folder, file) = first_word(rest);
    let graph = graph_of(alloc, files, folder)?;
    stepped(alloc, graph, files.bytes(file)?)
}

// `walk_copied FOLDER PERSON CHANCE WORDS`
fn walk_copied(alloc: Global, files: &Files, rest: &str) -> Result<String, Flaw> {
    let (folder, rest) = first_word(rest);
    let graph = graph_of(alloc, files, folder)?;
    walked(alloc, &graph, rest)
}

/// Makes the call of this word, over the files as they are, and tells what it answers; None where there is
/// no such call. Nothing is left of one call for the next.
pub fn answer(
    alloc: Global,
    files: &Files,
    call: &str,
    rest: &str,
) -> Result<Option<String>, Flaw> {
    match call {
        "handler" => Ok(Some(handler(alloc, files, rest)?)),
        "handlers" => Ok(Some(handlers(alloc, files, rest)?)),
        "steps_of" => Ok(Some(steps_of(alloc, files, rest)?)),
        "walk_copied" => Ok(Some(walk_copied(alloc, files, rest)?)),
        "apply_to_copy" => Ok(Some(apply_to_copy(alloc, files, rest)?)),
        "summary_copied" => Ok(Some(summary_copied(alloc, files, rest)?)),
        _ => Ok(None),
    }
}
