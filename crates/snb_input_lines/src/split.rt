//! Lines cut at their ends, and their fields, split by `csv`.

ghost use Rattle.std.specs.Prelude.{◌≡◌, ◌≢◌, ◌++◌, ◌∷◌, ℕ, List, Some, [], OnOk, OnErr, IsTrue, IsUtf8, MatchOption, true, ◌↔◌};
ghost use Rattle.csv.specs.Machine.{next_record};
ghost use Rattle.csv.specs.Reading.{has_failed};
ghost use Rattle.csv.specs.Records.{fields_of};
ghost use Rattle.csv.specs.declared.parser.State.TheVariants as st;
ghost use Rattle.snb_schema.specs.Lines.{begins_with_mark, fields};
ghost use Rattle.snb_input_lines.specs.Bars.{MayStand, Stands, bar_config};
ghost use Rattle.snb_input_lines.specs.Cut.{IsCutAtEnd};
ghost use Rattle.snb_schema.specs.Lines.{HasNoBar, HasNoEnd};

use crate::record::Record;
use csv::{ByteRecord, ErrorKind, Reader, ReaderBuilder, Terminator};
use memchr::memchr;
use simdutf8::is_utf8_baseline;
use std::alloc::{AllocError, Global};
use std::io::{Chain, Read};

// A line end, and two texts after it.
type Source<'a> = Chain<Chain<&'a [u8], &'a [u8]>, &'a [u8]>;

/// A reader of fields between bars.
pub(crate) type BarReader<'a> = Reader<Source<'a>>;

/// Whether the line begins with a byte order mark.
pub fn is_marked(line: &[u8]) -> bool
    ensures { result ≡ begins_with_mark line.now }
{
    match line {
        [a, b, c, ..] => *a == 0xef && *b == 0xbb && *c == 0xbf,
        _ => false,
    }
}

/// Whether the line is UTF-8.
pub(crate) fn is_utf8(line: &[u8]) -> bool
    ensures { IsTrue result ↔ IsUtf8 line.now }
{
    is_utf8_baseline(line)
}

/// A reader of the fields of the lines of two texts, one after the other. `csv` is given a line end
/// before them, since it passes over a mark where its text begins, and here none may be passed over.
pub(crate) fn bar_reader<'a>(alloc: Global, front: &'a [u8], back: &'a [u8]) -> BarReader<'a>
    ensures { Stands result (front.entry.now ++ back.entry.now) }
{
    let end: &'a [u8] = b"\n";
    ReaderBuilder::new()
        .delimiter(b'|')
        .quoting(false)
        .terminator(Terminator::Any(b'\n'))
        .has_headers(false)
        .flexible(true)
        .from_reader(alloc, end.chain(front).chain(back))
}

/// Takes the next record. The one error is want of memory, after which the reader has failed.
pub(crate) fn take_fields(
    reader: &mut BarReader<'_>,
    row: &mut ByteRecord,
) -> Result<(), AllocError>
    requires { (text : List ℕ) × MayStand reader.old text }
    ensures ok { OnOk result ((text rest : List ℕ) (fs : List (List ℕ)) → MayStand reader.old text
        → next_record bar_config st.StartRecord [] [] text ≡ Some (fs, st.StartRecord, rest)
        → (fields_of row.new ≡ fs) × Stands reader.new rest) }
    ensures err { OnErr result ((text rest : List ℕ) (fs : List (List ℕ)) → MayStand reader.old text
        → next_record bar_config st.StartRecord [] [] text ≡ Some (fs, st.StartRecord, rest)
        → has_failed reader.new ≡ true) }
{
    match reader.read_byte_record(row) {
        Ok(true) => Ok(()),
        Ok(false) => Err(AllocError),
        Err(e) => match e.kind() {
            ErrorKind::Io(_) | ErrorKind::OutOfMemory => Err(AllocError),
            _ => unreachable!(),
        },
    }
}

/// The bytes up to the first line end, and what begins with that line end.
pub fn cut_at_end<'a>(text: &'a [u8]) -> Option<(&'a [u8], &'a [u8])>
    ensures { MatchOption result (HasNoEnd text.entry.now)
        (λ parts. IsCutAtEnd text.entry.now parts.0.now parts.1.now) }
{
    match memchr(b'\n', text) {
        None => None,
        Some(end) => Some((&text[..end], &text[end..])),
    }
}

// The bytes up to the first bar, and those behind it.
fn cut_at_bar<'a>(text: &'a [u8]) -> Option<(&'a [u8], &'a [u8])>
    ensures { MatchOption result (HasNoBar text.entry.now)
        (λ parts. (text.entry.now ≡ parts.0.now ++ 124 ∷ parts.1.now) × HasNoBar parts.0.now) }
{
    match memchr(b'|', text) {
        None => None,
        Some(end) => Some((&text[..end], &text[end + 1..])),
    }
}

// Makes the row that of the fields of a line.
fn split_into(line: &[u8], row: &mut ByteRecord) -> Result<(), AllocError>
    ensures { OnOk result (fields_of row.new ≡ fields line.now) }
{
    row.clear();
    let mut rest = line;
    'fields: while let Some((field, behind)) = cut_at_bar(rest) {
        row.push_field(field)?;
        rest = behind;
    }
    row.push_field(rest)
}

/// Splits a line, which has no `\n`, at its bars into `row`. The one error is want of memory.
///
/// A reader of `csv` for a single line would take a buffer and clear it.
pub fn split_line(line: &[u8], row: &mut Record) -> Result<(), AllocError>
    ensures { OnOk result (row.new ≡ fields line.now) }
{
    split_into(line, &mut row.row)
}
