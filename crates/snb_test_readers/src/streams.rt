//! The call that reads an update stream.

ghost use Rattle.std.specs.Prelude.{◌+◌, ◌≤◌, length};
ghost use Rattle.snb_schema.specs.declared.limits.TheConstants.{MAX_BYTES};
ghost use Rattle.snb_streams.specs.Updates.{IsStream};

use crate::feeding::{Feeds, told_fed};
use crate::inserts::told_line;
use crate::pieces::{Reads, told_cut};
use snb_schema::{Fault, FileId, FileKind, Line};
use snb_streams::Updates;
use snb_test_script::{Files, Flaw, first_word};
use std::alloc::{AllocError, Global};

impl Feeds for Updates {
    type Item = Line;

    ghost fed = { λ updates. updates.reader.fed };

    ghost over = { λ updates. updates.reader.over };

    fn take(&mut self, piece: &[u8], into: &mut Vec<Line>) -> Result<(), Fault> {
        self.feed(piece, into)
    }

    fn finish(&mut self, into: &mut Vec<Line>) -> Result<(), Fault> {
        self.end(into)
    }

    fn told_item(&self, alloc: Global, item: &Line) -> Result<String, Flaw> {
        let text = told_line(alloc, item)?;
        let text = text.as_str();
        let number = item.number;
        Ok(format!(in alloc; "{number} {text}")?)
    }

    fn told_end(&self, alloc: Global) -> Result<String, AllocError> {
        Ok(String::new(alloc))
    }
}

// Reads the stream in these two pieces.
fn told_stream(alloc: Global, file: FileId, first: &[u8], second: &[u8]) -> Result<String, Flaw>
    requires stream { IsStream file }
    requires bytes { length first.now + length second.now + length second.now ≤ MAX_BYTES }
{
    told_fed(alloc, &mut Updates::new(alloc, file), first, second)
}

// Reads a stream of persons.
#[derive(Clone, Copy)]
struct Persons;

impl Reads for Persons {
    fn told(&self, alloc: Global, first: &[u8], second: &[u8]) -> Result<String, Flaw> {
        let file = FileId {
            kind: FileKind::PersonStream,
            part: 0,
        };
        told_stream(alloc, file, first, second)
    }
}

// Reads a stream of the other inserts.
#[derive(Clone, Copy)]
struct Forums;

impl Reads for Forums {
    fn told(&self, alloc: Global, first: &[u8], second: &[u8]) -> Result<String, Flaw> {
        let file = FileId {
            kind: FileKind::ForumStream,
            part: 0,
        };
        told_stream(alloc, file, first, second)
    }
}

/// `stream KIND FILE`
pub(crate) fn stream(alloc: Global, files: &Files, rest: &str) -> Result<String, Flaw> {
    let (kind, file) = first_word(rest);
    match kind {
        "person" => told_cut(alloc, &Persons, files.bytes(file)?),
        "forum" => told_cut(alloc, &Forums, files.bytes(file)?),
        _ => Err(Flaw::NoName),
    }
}
