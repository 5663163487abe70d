//! The call that reads a file of posts in two pieces, cut at each place.

ghost use Rattle.std.specs.Prelude.{◌+◌, ◌≤◌, length};
ghost use Rattle.snb_schema.specs.declared.limits.TheConstants.{MAX_BYTES};

use snb_csv::Rows;
use snb_schema::{Fault, FileId, FileKind, MAX_BYTES, Placed, Row, Table};
use snb_test_script::{Files, Flaw, Lines, shown};
use std::alloc::Global;

// Why there are no posts.
fn flaw_of(fault: Fault) -> Flaw {
    match fault {
        Fault::Bad { .. } => Flaw::OtherValue,
        Fault::Memory => Flaw::Memory,
    }
}

// The rows of a file of posts that is fed in these two pieces.
fn rows_of(alloc: Global, first: &[u8], second: &[u8]) -> Result<Vec<Placed>, Flaw>
    requires { length first.now + length second.now ≤ MAX_BYTES }
{
    let file = FileId {
        kind: FileKind::Table { table: Table::Post },
        part: 0,
    };
    let mut rows = Vec::new(alloc);
    let mut reader = Rows::new(alloc, file);
    match reader.feed(first, &mut rows) {
        Ok(()) => {}
        Err(fault) => return Err(flaw_of(fault)),
    }
    match reader.feed(second, &mut rows) {
        Ok(()) => {}
        Err(fault) => return Err(flaw_of(fault)),
    }
    match reader.end(&mut rows) {
        Ok(()) => Ok(rows),
        Err(fault) => Err(flaw_of(fault)),
    }
}

// The image file and the content of a post.
fn told_post(alloc: Global, row: &Row) -> Result<String, Flaw> {
    match row {
        Row::Post { post } => {
            let image_file = post.image_file.as_str();
            let content = shown(alloc, post.content.as_str().as_bytes())?;
            let content = content.as_str();
            Ok(format!(in alloc; "image '{image_file}', content '{content}'")?)
        }
        _ => Err(Flaw::OtherValue),
    }
}

// The posts of a file that is fed in these two pieces.
fn told_posts(alloc: Global, first: &[u8], second: &[u8]) -> Result<String, Flaw>
    requires { length first.now + length second.now ≤ MAX_BYTES }
{
    let mut answer = Lines::new(alloc);
    for placed in &rows_of(alloc, first, second)? {
        let line = told_post(alloc, &placed.row)?;
        answer.add(line.as_str())?;
    }
    Ok(answer.told())
}

/// `posts FILE`
pub fn posts(alloc: Global, files: &Files, rest: &str) -> Result<String, Flaw> {
    let text = files.bytes(rest)?;
    if text.len() as u64 > MAX_BYTES {
        return Err(Flaw::OtherValue);
    }
    let wanted = told_posts(alloc, text, b"")?;
    for at in 0..text.len() {
        let came = told_posts(alloc, &text[..at], &text[at..])?;
        if came.as_str() != wanted.as_str() {
            let came = came.as_str();
            return Ok(format!(in alloc; "differs when it is cut at {at}: {came}")?);
        }
    }
    Ok(wanted)
}
