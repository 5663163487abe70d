//! How far a reader of lines has come.

ghost use Rattle.std.specs.Prelude.{◌≡◌, ◌+◌, ◌^◌, ◌≢◌, ◌<◌, ◌≤◌, ◌++◌, ◌∷◌, ℕ, List, [], length, IfErr, IsUtf8, OnOk, OnErr, None, true};
ghost use Rattle.snb_schema.specs.declared.fault.Fault.TheVariants.{Bad};
ghost use Rattle.snb_schema.specs.declared.limits.TheConstants.{MAX_BYTES};
ghost use Rattle.snb_schema.specs.declared.refusal.Refusal.{Refusal as Refused};
ghost use Rattle.snb_schema.specs.Faults.{OnBad};
ghost use Rattle.snb_schema.specs.LineFaults.{RefusesText};
ghost use Rattle.snb_schema.specs.Lines.{HasNoEnd, fields};
ghost use Rattle.snb_input_lines.specs.Cut.{last_lines, rest_of, whole_lines};
ghost use Rattle.snb_input_lines.specs.Feeding.{OnMemory};
ghost use Rattle.snb_input_lines.specs.Language.{FieldsAs, Fits, IsText, IsTextLine};
ghost use Rattle.snb_input_lines.specs.Reading.{RefusesAs, end_fault};
ghost use Rattle.snb_input_lines.specs.Steps.{FileStopped, LineRefused, LineTaken, LinesRunOut, LinesStopped, LinesTaken, TextTaken, fault_of};

use crate::ended::EndedLines;
use crate::grammar::Grammar;
use crate::record::Record;
use crate::sink::Sink;
use crate::split::{cut_at_end, is_marked, is_utf8, split_line};
use snb_schema::{Fault, FileId, LineFault, Refusal};
use std::alloc::Global;
use std::mem;

// Finds fault with a line that begins with a byte order mark, or that isn't UTF-8, unless it is known
// to be.
fn check_line(file: FileId, number: u32, line: &[u8], known: bool) -> Result<(), Fault>
    requires { known ≡ true → IsUtf8 line.now }
    ensures ok { OnOk result (IsText line.now) }
    ensures err { IfErr result (λ fault. (r : Refused) × (fault ≡ Bad r) × RefusesText file number line.now r) }
{
    if is_marked(line) {
        return Err(Fault::Bad {
            refusal: Refusal::BadLine {
                file,
                line: number,
                column: 1,
            },
        });
    }
    if !known && !is_utf8(line) {
        return Err(Fault::Bad {
            refusal: Refusal::NotUtf8 { file, line: number },
        });
    }
    Ok(())
}

/// What a reader reads, and by what.
#[derive(Drop)]
pub struct Source<G> {
    pub alloc: Global,
    pub file: FileId,
    pub grammar: G,
}

/// How many lines have ended, the bytes of the line begun, and what the header said.
#[derive(Drop)]
pub struct Progress<K> {
    pub ended: u32,
    pub begun: Vec<u8>,
    pub known: Option<K>,
}

// What is wrong with the file where its line of this number is refused so.
fn fault_at(file: FileId, line: u32, why: LineFault) -> Fault
    ensures { result ≡ fault_of file line why }
{
    match why {
        LineFault::Bad { column } => Fault::Bad {
            refusal: Refusal::BadLine { file, line, column },
        },
        LineFault::Memory => Fault::Memory,
    }
}

// Takes the line of this number, which is a text that has a byte.
fn take_text<G: Grammar, S: Sink<G::Item>>(
    of: &Source<G>,
    at: &mut Progress<G::Known>,
    number: u32,
    line: &[u8],
    row: &Record,
    sink: &mut S,
) -> Result<(), Fault>
    requires text { IsTextLine (G.language of.now.grammar).splits line.now (row.now) }
    requires fits { Fits (G.language of.now.grammar) S.meaning.fits }
    ensures ok { OnOk result
        (TextTaken (G.language of.now.grammar) S.meaning.takes of.now.file number line.now at.old sink.old at.new
        sink.new) }
    ensures bad { OnBad result
        (RefusesAs (G.language of.now.grammar) S.meaning.refuses of.now.file at.old.known sink.old number line.now) }
    ensures same { OnErr result (S.meaning.same sink.old sink.new) }
    ensures ended { at.new.ended ≡ at.old.ended }
    ensures begun { at.new.begun.items ≡ at.old.begun.items }
{
    match &at.known {
        None => match of.grammar.read_header(line, row) {
            Ok(known) => {
                at.known = Some(known);
                Ok(())
            }
            Err(why) => Err(fault_at(of.file, number, why)),
        },
        Some(known) => match of.grammar.read_item(known, number, line, row) {
            Ok(item) => sink.put(of.file, item),
            Err(fault) => Err(fault_at(of.file, number, fault)),
        },
    }
}

// Takes the next line, which may be known to be UTF-8. Its fields are in `row`, where it has a byte.
fn take_line<G: Grammar, S: Sink<G::Item>>(
    of: &Source<G>,
    at: &mut Progress<G::Known>,
    line: &[u8],
    known: bool,
    row: &Record,
    sink: &mut S,
) -> Result<(), Fault>
    requires room { at.old.ended + 1 < 2 ^ 32 }
    requires one_line { HasNoEnd line.now }
    requires utf8 { known ≡ true → IsUtf8 line.now }
    requires split { line.now ≢ [] → FieldsAs (G.language of.now.grammar).splits line.now (row.now) }
    requires fits { Fits (G.language of.now.grammar) S.meaning.fits }
    ensures ok { OnOk result
        (LineTaken (G.language of.now.grammar) S.meaning.takes of.now.file line.now at.old sink.old at.new sink.new) }
    ensures bad { OnBad result
        (LineRefused (G.language of.now.grammar) S.meaning.refuses of.now.file line.now at.old sink.old) }
    ensures same { OnErr result (S.meaning.same sink.old sink.new) }
    ensures ended { OnOk result (at.new.ended ≡ at.old.ended + 1) }
    ensures begun { at.new.begun.items ≡ at.old.begun.items }
{
    let number = at.ended + 1;
    if !line.is_empty() {
        check_line(of.file, number, line, known)?;
        take_text(of, at, number, line, row, sink)?;
    }
    at.ended = number;
    Ok(())
}

// Takes the line begun, which nothing follows.
fn take_last<G: Grammar, S: Sink<G::Item>>(
    of: &Source<G>,
    at: &mut Progress<G::Known>,
    sink: &mut S,
) -> Result<(), Fault>
    requires room { at.old.ended + 1 < 2 ^ 32 }
    requires one_line { HasNoEnd at.old.begun.items }
    requires fits { Fits (G.language of.now.grammar) S.meaning.fits }
    ensures ok { OnOk result
        (LineTaken (G.language of.now.grammar) S.meaning.takes of.now.file at.old.begun.items at.old sink.old at.new
        sink.new) }
    ensures bad { OnBad result
        (LineRefused (G.language of.now.grammar) S.meaning.refuses of.now.file at.old.begun.items at.old sink.old) }
    ensures same { OnErr result (S.meaning.same sink.old sink.new) }
    ensures ended { OnOk result (at.new.ended ≡ at.old.ended + 1) }
    ensures begun { at.new.begun.items ≡ [] }
{
    let mut row = Record::new(of.alloc);
    let line = mem::replace(&mut at.begun, Vec::new(of.alloc));
    split_line(line.as_slice(), &mut row)?;
    take_line(of, at, line.as_slice(), false, &row, sink)
}

// Takes the lines of a text that are ended, and begins the line that follows them.
fn take_lines<G: Grammar, S: Sink<G::Item>>(
    of: &Source<G>,
    at: &mut Progress<G::Known>,
    text: &mut EndedLines<'_>,
    sink: &mut S,
) -> Result<(), Fault>
    requires splits { text.old.splits ≡ (G.language of.now.grammar).splits }
    requires fresh { at.old.begun.items ≡ [] }
    requires room { at.old.ended + length text.old.text ≤ MAX_BYTES }
    requires fits { Fits (G.language of.now.grammar) S.meaning.fits }
    ensures ok { OnOk result
        (LinesTaken (G.language of.now.grammar) S.meaning.takes of.now.file (whole_lines text.old.text) at.old
        sink.old at.new sink.new) }
    ensures bad { OnBad result
        (LinesStopped (G.language of.now.grammar) S.meaning.takes S.meaning.refuses S.meaning.same of.now.file
        (whole_lines text.old.text) at.old sink.old sink.new) }
    ensures memory { OnMemory result
        (LinesRunOut (G.language of.now.grammar) S.meaning.takes S.meaning.same of.now.file
        (whole_lines text.old.text) at.old sink.old sink.new) }
    ensures ended { OnOk result (at.new.ended ≡ at.old.ended + length (whole_lines text.old.text)) }
    ensures begun { OnOk result (at.new.begun.items ≡ rest_of text.old.text) }
{
    let mut row = Record::new(of.alloc);
    while let Some(line) = text.read(&mut row)? {
        take_line(of, at, line, text.is_utf8(), &row, sink)?;
    }
    at.begun.extend_from_slice(text.rest())?;
    Ok(())
}

// Takes the lines that are ended of a line and of what follows it, which begins with its end, and begins
// the line that follows them.
fn take_ended<G: Grammar, S: Sink<G::Item>>(
    of: &Source<G>,
    at: &mut Progress<G::Known>,
    first: &[u8],
    others: &[u8],
    sink: &mut S,
) -> Result<(), Fault>
    requires one_line { HasNoEnd first.now }
    requires ends { (rest : List ℕ) × (others.now ≡ 10 ∷ rest) }
    requires fresh { at.old.begun.items ≡ [] }
    requires room { at.old.ended + length (first.now ++ others.now) ≤ MAX_BYTES }
    requires fits { Fits (G.language of.now.grammar) S.meaning.fits }
    ensures ok { OnOk result
        (LinesTaken (G.language of.now.grammar) S.meaning.takes of.now.file (whole_lines (first.now ++ others.now))
        at.old sink.old at.new sink.new) }
    ensures bad { OnBad result
        (LinesStopped (G.language of.now.grammar) S.meaning.takes S.meaning.refuses S.meaning.same of.now.file
        (whole_lines (first.now ++ others.now)) at.old sink.old sink.new) }
    ensures memory { OnMemory result
        (LinesRunOut (G.language of.now.grammar) S.meaning.takes S.meaning.same of.now.file
        (whole_lines (first.now ++ others.now)) at.old sink.old sink.new) }
    ensures ended { OnOk result (at.new.ended ≡ at.old.ended + length (whole_lines (first.now ++ others.now))) }
    ensures begun { OnOk result (at.new.begun.items ≡ rest_of (first.now ++ others.now)) }
{
    let mut text = EndedLines::new(of.alloc, of.grammar.splits(), first, others);
    take_lines(of, at, &mut text, sink)
}

/// Takes the lines that are ended in the piece, and begins the line that follows them.
pub fn take_piece<G: Grammar, S: Sink<G::Item>>(
    of: &Source<G>,
    at: &mut Progress<G::Known>,
    piece: &[u8],
    sink: &mut S,
) -> Result<(), Fault>
    requires one_line { HasNoEnd at.old.begun.items }
    requires room { at.old.ended + length at.old.begun.items + length piece.now ≤ MAX_BYTES }
    requires fits { Fits (G.language of.now.grammar) S.meaning.fits }
    ensures ok { OnOk result
        (LinesTaken (G.language of.now.grammar) S.meaning.takes of.now.file
        (whole_lines (at.old.begun.items ++ piece.now)) at.old sink.old at.new sink.new) }
    ensures bad { OnBad result
        (LinesStopped (G.language of.now.grammar) S.meaning.takes S.meaning.refuses S.meaning.same of.now.file
        (whole_lines (at.old.begun.items ++ piece.now)) at.old sink.old sink.new) }
    ensures memory { OnMemory result
        (LinesRunOut (G.language of.now.grammar) S.meaning.takes S.meaning.same of.now.file
        (whole_lines (at.old.begun.items ++ piece.now)) at.old sink.old sink.new) }
    ensures ended { OnOk result (at.new.ended ≡ at.old.ended + length (whole_lines (at.old.begun.items ++ piece.now))) }
    ensures begun { OnOk result (at.new.begun.items ≡ rest_of (at.old.begun.items ++ piece.now)) }
{
    let Some((head, others)) = cut_at_end(piece) else {
        at.begun.extend_from_slice(piece)?;
        return Ok(());
    };
    let mut line = mem::replace(&mut at.begun, Vec::new(of.alloc));
    line.extend_from_slice(head)?;
    take_ended(of, at, line.as_slice(), others, sink)
}

/// Takes the line begun, where it has a byte, and ends the file.
pub fn finish<G: Grammar, S: Sink<G::Item>>(
    of: &Source<G>,
    at: &mut Progress<G::Known>,
    sink: &mut S,
) -> Result<(), Fault>
    requires one_line { HasNoEnd at.old.begun.items }
    requires room { at.old.ended + length at.old.begun.items ≤ MAX_BYTES }
    requires fits { Fits (G.language of.now.grammar) S.meaning.fits }
    ensures ok { OnOk result
        (LinesTaken (G.language of.now.grammar) S.meaning.takes of.now.file (last_lines at.old.begun.items) at.old
        sink.old at.new sink.new) }
    ensures ends { OnOk result (end_fault of.now.file at.new.known (S.meaning.ends sink.new of.now.file) ≡ None) }
    ensures bad { OnBad result
        (FileStopped (G.language of.now.grammar) S.meaning.takes S.meaning.refuses S.meaning.same S.meaning.ends
        of.now.file (last_lines at.old.begun.items) at.old sink.old sink.new) }
    ensures memory { OnMemory result
        (LinesRunOut (G.language of.now.grammar) S.meaning.takes S.meaning.same of.now.file
        (last_lines at.old.begun.items) at.old sink.old sink.new) }
    ensures ended { OnOk result (at.new.ended ≡ at.old.ended + length (last_lines at.old.begun.items)) }
    ensures begun { OnOk result (at.new.begun.items ≡ []) }
{
    if !at.begun.is_empty() {
        take_last(of, at, sink)?;
    }
    match end_refusal(of.file, &at.known, sink.at_end(of.file)) {
        Some(refusal) => Err(Fault::Bad { refusal }),
        None => Ok(()),
    }
}

// What is refused at the end of a file.
fn end_refusal<K>(file: FileId, known: &Option<K>, own: Option<Refusal>) -> Option<Refusal>
    ensures { result ≡ end_fault file known.now own }
{
    if known.is_none() {
        return Some(Refusal::NoHeader { file });
    }
    own
}
