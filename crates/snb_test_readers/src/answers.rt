//! The calls of this crate by their words. To add one, write a function for it, and name it here.

use crate::inserts::insert_line;
use crate::logs::{log_again, log_events};
use crate::outbox::null_outbox;
use crate::parameters::parameter_file;
use crate::streams::stream;
use crate::tables::table_rows;
use snb_test_script::{Files, Flaw};
use std::alloc::Global;

/// Makes the call of this word, over the files as they are, and tells what it answers; None where there is
/// no such call. Nothing is left of one call for the next.
pub fn answer(
    alloc: Global,
    files: &Files,
    call: &str,
    rest: &str,
) -> Result<Option<String>, Flaw> {
    let answer = match call {
        "table_rows" => table_rows(alloc, files, rest)?,
        "stream" => stream(alloc, files, rest)?,
        "insert_line" => insert_line(alloc, rest)?,
        "parameter_file" => parameter_file(alloc, files, rest)?,
        "log_events" => log_events(alloc, files, rest)?,
        "log_again" => log_again(alloc, files, rest)?,
        "null_outbox" => null_outbox(alloc, rest)?,
        _ => return Ok(None),
    };
    Ok(Some(answer))
}
