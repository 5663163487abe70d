//! What is shown for a refused input.

ghost use Rattle.std.specs.Prelude.{◌≡◌, ◌++◌, IfOk, codes};
ghost use Rattle.std.specs.Fmt.{decimal};
ghost use Rattle.snb_schema.specs.FileNames.{name_of};
ghost use Rattle.snb_schema.specs.ScreenTexts.{refusal_text, cause_text, kind_text, counted_text};

use snb_schema::{Counted, FileId, Kind, Refusal, file_name, table_name};
use std::alloc::{AllocError, Global};

// The name of a node's kind.
fn kind_name(kind: Kind) -> &'static str
    ensures { result.now ≡ kind_text kind }
{
    match kind {
        Kind::Place => "place",
        Kind::TagClass => "tagclass",
        Kind::Tag => "tag",
        Kind::Organisation => "organisation",
        Kind::Person => "person",
        Kind::Forum => "forum",
        Kind::Post => "post",
        Kind::Comment => "comment",
    }
}

// The name of what there are too many of.
fn counted_name(what: Counted) -> &'static str
    ensures { result.now ≡ counted_text what }
{
    match what {
        Counted::Rows => "rows",
        Counted::Reads => "reads",
        Counted::Parts => "parts",
        Counted::Lanes => "lanes",
    }
}

// The name of the file and what is said of it. The name's bytes are copied as they are, so that
// they need not be proved to be a text.
fn file_cause(alloc: Global, file: FileId, said: &str) -> Result<Vec<u8>, AllocError>
    ensures { IfOk result (λ cause. cause.items ≡ name_of file ++ said.now) }
{
    let mut cause = Vec::new(alloc);
    file_name(file, &mut cause)?;
    cause.extend_from_slice(said.as_bytes())?;
    Ok(cause)
}

// The name of the file, the line, and what is said of it.
fn line_cause(alloc: Global, file: FileId, line: u32, said: &str) -> Result<Vec<u8>, AllocError>
    ensures { IfOk result (λ cause. cause.items ≡ name_of file ++ codes ":" ++ decimal line ++ said.now) }
{
    let placed = format!(in alloc; ":{line}{said}")?;
    file_cause(alloc, file, placed.as_str())
}

// What is wrong, without the words before it and the line end.
fn cause_bytes(alloc: Global, refusal: Refusal) -> Result<Vec<u8>, AllocError>
    ensures { IfOk result (λ cause. cause.items ≡ cause_text refusal) }
{
    match refusal {
        Refusal::Absent { file } => file_cause(alloc, file, ": absent"),
        Refusal::TooLarge { file } => file_cause(alloc, file, ": too large"),
        Refusal::NoHeader { file } => file_cause(alloc, file, ": no header"),
        Refusal::BadLine { file, line, column } => {
            let said = format!(in alloc; ": column {column}")?;
            line_cause(alloc, file, line, said.as_str())
        }
        Refusal::NotUtf8 { file, line } => line_cause(alloc, file, line, ": not UTF-8"),
        Refusal::Duplicate { file, line } => line_cause(alloc, file, line, ": duplicate"),
        Refusal::Dangling { file, line, column } => {
            let said = format!(in alloc; ": column {column}: dangling")?;
            line_cause(alloc, file, line, said.as_str())
        }
        Refusal::Lacks { table, id, edge } => {
            let name = table_name(table);
            let lacked = table_name(edge);
            Ok(format!(in alloc; "{name} {id}: lacks {lacked}")?.into_bytes())
        }
        Refusal::Cycle { comment } => {
            Ok(format!(in alloc; "comment {comment}: cycle")?.into_bytes())
        }
        Refusal::OutOfOrder { file, line } => line_cause(alloc, file, line, ": out of order"),
        Refusal::LateDependency { file, line } => {
            line_cause(alloc, file, line, ": late dependency")
        }
        Refusal::Unmet {
            file,
            line,
            missing,
        } => {
            let kind = kind_name(missing.kind);
            let id = missing.id;
            let said = format!(in alloc; ": unmet {kind} {id}")?;
            line_cause(alloc, file, line, said.as_str())
        }
        Refusal::TooMany { what } => {
            let name = counted_name(what);
            Ok(format!(in alloc; "too many {name}")?.into_bytes())
        }
        Refusal::NoParameters { file } => file_cause(alloc, file, ": no parameters"),
        Refusal::Unregistered { kind } => {
            let word = kind.word();
            Ok(format!(in alloc; "{word}: no handler")?.into_bytes())
        }
    }
}

/// The line that names the refusal.
pub fn refusal_line(alloc: Global, refusal: Refusal) -> Result<Vec<u8>, AllocError>
    ensures { IfOk result (λ line. line.items ≡ refusal_text refusal) }
{
    let cause = cause_bytes(alloc, refusal)?;
    let mut line = Vec::from_slice(alloc, b"refused: ")?;
    line.extend_from_slice(&cause)?;
    line.push(b'\n')?;
    Ok(line)
}
