//! Refusals as texts.

use snb_schema::{FileId, Refusal, name_text};
use std::alloc::{AllocError, Global};

// What is wrong with a line of a file.
fn at_line(alloc: Global, file: FileId, line: u32, how: &str) -> Result<String, AllocError> {
    let name = name_text(alloc, file)?;
    let name = name.as_str();
    format!(in alloc; "{name}:{line}: {how}")
}

/// What is wrong first, in the words of the program.
pub(crate) fn told_refusal(alloc: Global, refusal: Refusal) -> Result<String, AllocError> {
    match refusal {
        Refusal::NoHeader { file } => {
            let name = name_text(alloc, file)?;
            let name = name.as_str();
            format!(in alloc; "{name}: no header")
        }
        Refusal::NotUtf8 { file, line } => at_line(alloc, file, line, "not UTF-8"),
        Refusal::OutOfOrder { file, line } => at_line(alloc, file, line, "out of order"),
        Refusal::BadLine { file, line, column } => {
            let how = format!(in alloc; "column {column}")?;
            at_line(alloc, file, line, how.as_str())
        }
        _ => String::from_str(alloc, "refused for another reason"),
    }
}
