//! The lines of a text that are ended.

ghost use Rattle.std.specs.Prelude.{◌≡◌, ◌≢◌, ◌++◌, ◌∷◌, [], ℕ, List, OnOk, OnErr, IfOk, IsUtf8, MatchOption, is_some, true, ⊤};
ghost use Rattle.snb_schema.specs.Lines.{HasNoEnd};
ghost use Rattle.snb_input_lines.specs.Cut.{IsCutAtEnd};
ghost use Rattle.snb_input_lines.specs.Ended.{AnyStands, AreUtf8};
ghost use Rattle.snb_input_lines.specs.Language.{FieldsAs};

use crate::record::Record;
use crate::split::{BarReader, bar_reader, cut_at_end, is_utf8, take_fields};
use memchr::memrchr;
use std::alloc::{AllocError, Global};
use std::marker::Model;

// Whether each line that is ended is known to be UTF-8, of a text in two parts: what comes before the
// last end is. What follows it may be cut within a character.
fn are_utf8(front: &[u8], back: &[u8]) -> bool
    ensures { AreUtf8 result (front.now ++ back.now) }
{
    match memrchr(b'\n', back) {
        None => false,
        Some(end) => is_utf8(front) && is_utf8(&back[..end]),
    }
}

// A reader of the fields of the lines of two texts, where lines are split.
fn reader_of<'a>(
    alloc: Global,
    splits: bool,
    front: &'a [u8],
    back: &'a [u8],
) -> Option<BarReader<'a>>
    ensures stands { AnyStands result (front.entry.now ++ back.entry.now) }
    ensures splits { is_some result ≡ splits }
{
    if splits {
        Some(bar_reader(alloc, front, back))
    } else {
        None
    }
}

// Takes the fields of the next line, where lines are split and it has a byte. The one error is want of
// memory.
fn take_any_fields(
    reader: &mut Option<BarReader<'_>>,
    line: &[u8],
    row: &mut Record,
) -> Result<(), AllocError>
    requires one_line { HasNoEnd line.now }
    requires stands { (rest : List ℕ) × AnyStands reader.old (line.now ++ 10 ∷ rest) }
    ensures ok { OnOk result
        ((rest : List ℕ) → AnyStands reader.old (line.now ++ 10 ∷ rest) → AnyStands reader.new rest) }
    ensures fields { OnOk result (line.now ≢ [] → FieldsAs (is_some reader.old) line.now (row.new)) }
    ensures err { OnErr result ((text : List ℕ) → AnyStands reader.new text) }
    ensures splits { is_some reader.new ≡ is_some reader.old }
{
    let Some(reader) = reader else {
        return Ok(());
    };
    if line.is_empty() {
        return Ok(());
    }
    take_fields(reader, &mut row.row)
}

// The next line that is ended, of which the first may be apart, and what begins with its end.
fn next_line<'a>(first: &'a [u8], rest: &'a [u8]) -> Option<(&'a [u8], &'a [u8])>
    requires one_line { HasNoEnd first.now }
    requires ends { first.now ≢ [] → (others : List ℕ) × (rest.now ≡ 10 ∷ others) }
    ensures { MatchOption result (HasNoEnd (first.entry.now ++ rest.entry.now))
        (λ parts. IsCutAtEnd (first.entry.now ++ rest.entry.now) parts.0.now parts.1.now) }
{
    if first.is_empty() {
        cut_at_end(rest)
    } else {
        Some((first, rest))
    }
}

/// Gives the lines of a text that are ended, and where lines are split each with its fields, over one
/// reader of `csv`. The first of them may be apart from the others. A contract sees it as what is left.
pub struct EndedLines<'a> {
    reader: Option<BarReader<'a>>,
    first: &'a [u8],
    rest: &'a [u8],
    is_utf8: bool,
}

impl Drop for EndedLines<'_> {
    fn drop(self) {
        let EndedLines {
            reader: _,
            first: _,
            rest: _,
            is_utf8: _,
        } = self;
    }
}

impl<'a> Model for EndedLines<'a> {
    ghost use Rattle.std.specs.Prelude.{◌++◌, is_some};
    ghost use Rattle.snb_input_lines.specs.Ended.{IsLeft, Left};

    ghost Value = { Left };

    ghost view = { λ s. record { text = s.first.now ++ s.rest.now; splits = is_some s.reader; is_utf8 = s.is_utf8 } };

    ghost invariant = { λ s. IsLeft s.reader s.first.now s.rest.now s.is_utf8 };
}

impl<'a> EndedLines<'a> {
    /// Reads a line, which has no `\n`, and what comes after it, which begins with one. The lines are
    /// split where `splits` says so.
    pub fn new(alloc: Global, splits: bool, first: &'a [u8], others: &'a [u8]) -> EndedLines<'a>
        requires one_line { HasNoEnd first.now }
        requires ends { (rest : List ℕ) × (others.now ≡ 10 ∷ rest) }
        ensures text { result.text ≡ first.entry.now ++ others.entry.now }
        ensures splits { result.splits ≡ splits }
    {
        EndedLines {
            reader: reader_of(alloc, splits, first, others),
            first,
            rest: others,
            is_utf8: are_utf8(first, others),
        }
    }

    /// Whether each line that is left and ended is known to be UTF-8.
    pub fn is_utf8(&self) -> bool
        ensures { result ≡ self.now.is_utf8 }
    {
        self.is_utf8
    }

    /// The bytes that are left, once no line is left that is ended.
    pub fn rest(&self) -> &'a [u8]
        ensures { HasNoEnd self.now.text → result.now ≡ self.now.text }
    {
        self.rest
    }

    /// The next line that is ended, which may be empty, and, where it is not and lines are split, its
    /// fields in `row`. The one error is want of memory.
    pub fn read(&mut self, row: &mut Record) -> Result<Option<&'a [u8]>, AllocError>
        ensures line { IfOk result
            (λ found. MatchOption found (HasNoEnd self.old.text × (self.new.text ≡ self.old.text))
            (λ line. HasNoEnd line.now × (self.old.text ≡ line.now ++ 10 ∷ self.new.text))) }
        ensures fields { IfOk result
            (λ found. MatchOption found ⊤ (λ line. line.now ≢ [] → FieldsAs self.new.splits line.now (row.new))) }
        ensures utf8 { IfOk result
            (λ found. MatchOption found ⊤ (λ line. self.new.is_utf8 ≡ true → IsUtf8 line.now)) }
        ensures splits { self.new.splits ≡ self.old.splits }
    {
        let Some((line, others)) = next_line(self.first, self.rest) else {
            return Ok(None);
        };
        take_any_fields(&mut self.reader, line, row)?;
        self.first = &[];
        self.rest = &others[1..];
        Ok(Some(line))
    }
}
