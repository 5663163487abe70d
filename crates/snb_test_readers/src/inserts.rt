//! The call that reads a line of an update stream by itself, and writes it again.

use snb_schema::{Line, LineFault};
use snb_streams::{read_line, write_line};
use snb_test_script::{Flaw, put_plain, shown};
use std::alloc::Global;

/// What the line is written as.
pub(crate) fn told_line(alloc: Global, line: &Line) -> Result<String, Flaw> {
    let mut written = Vec::new(alloc);
    write_line(line, &mut written)?;
    Ok(shown(alloc, written.as_slice())?)
}

/// `insert_line LINE`
pub(crate) fn insert_line(alloc: Global, rest: &str) -> Result<String, Flaw> {
    let mut text = Vec::new(alloc);
    let _ = put_plain(rest, &mut text)?;
    match read_line(alloc, text.as_slice()) {
        Ok(line) => told_line(alloc, &line),
        Err(LineFault::Bad { column }) => Ok(format!(in alloc; "column {column}")?),
        Err(LineFault::Memory) => Err(Flaw::Memory),
    }
}
