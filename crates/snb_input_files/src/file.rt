//! The loading of one file.

ghost use Rattle.std.specs.Prelude.{◌≡◌, ◌+◌, ◌≤◌, ◌<◌, ℕ, [], List, IfOk, length, vec_len, None, false, true};
ghost use Rattle.snb_base.specs.Reads.{IsShelfRead};
ghost use Rattle.snb_schema.specs.declared.limits.TheConstants.{MAX_BYTES};
ghost use Rattle.snb_input_lines.specs.Counts.{IsUnder};
ghost use Rattle.snb_input_lines.specs.declared.counted.RowCount.{RowCount as Row};
ghost use Rattle.snb_input_lines.specs.Feeding.{at_begin};
ghost use Rattle.snb_input_files.specs.Format.{AreTakers, format_in};
ghost use Rattle.snb_input_files.specs.Loading.{IsAnswer, IsKnownAnswer, IsWithin, is_read_fault};
ghost use Rattle.snb_input_files.specs.Pieces.{IsEnd, IsFed, Opened};
ghost use Rattle.snb_input_files.specs.Places.{FilesSay, ReadFile};

use crate::file_sink::FileSink;
use crate::found::Found;
use crate::load::{Load, Used};
use crate::pieces::{Step, read_piece};
use snb_base::Shelf;
use snb_input_lines::{Grammar, LineReader, RowCount};
use snb_schema::{FileId, MAX_BYTES};
use std::alloc::{AllocError, Global};

// How many bytes are asked for at once.
const PIECE: usize = 65536;

/// Room for one piece.
pub(crate) fn piece_buffer(alloc: Global) -> Result<Vec<u8>, AllocError>
    ensures { IfOk result (λ buffer. 0 < vec_len buffer) }
{
    vec![in alloc; 0u8; PIECE]
}

// Ends a file that was read to its end, after so many bytes of files before it. The error is what the
// last line, the lack of a header or too little that was said is refused for, or want of memory.
fn end_file<G: Grammar + Drop, P: FileSink<G> + Drop>(
    file: FileId,
    used: Used,
    reader: &mut LineReader<G>,
    mut sink: RowCount<P>,
) -> Result<Found<P>, Load>
    requires right { AreTakers G.language P.stage P.meaning }
    requires of_file { reader.old.file ≡ file }
    requires by_grammar { reader.old.grammar ≡ P.stage.grammar_of file }
    requires few { used.bytes + reader.old.fed ≤ MAX_BYTES }
    requires goes_on { reader.old.over ≡ false }
    requires good { reader.old.fault ≡ None }
    ensures end { (begun : P) (past : List ReadFile) (start : Row P) (text : List ℕ)
        → Opened (format_in G.language P.stage begun) (P.stage.heard begun) used.rows past start
        → IsFed (format_in G.language P.stage begun) P.meaning.takes file (P.stage.grammar_of file) start text
        reader.old sink
        → IsEnd (format_in G.language P.stage begun) (P.stage.heard begun) file used past text reader.new.known result }
    ensures within { (begun : P) (start : Row P) (text : List ℕ) → start.most ≡ P.stage.limit
        → IsUnder P.stage.limit start.rows
        → IsFed (format_in G.language P.stage begun) P.meaning.takes file (P.stage.grammar_of file) start text
        reader.old sink
        → IfOk result (IsWithin P.stage.limit) }
    ensures fault { is_read_fault result ≡ false }
{
    match reader.end_to(&mut sink) {
        Err(fault) => Err(Load::from(fault)),
        Ok(()) => {
            let bytes = used.bytes + reader.fed();
            let RowCount {
                most: _,
                rows,
                sink: file_sink,
            } = sink;
            Ok(Found::Whole {
                file_sink,
                used: Used { bytes, rows },
            })
        }
    }
}

/// Does what `load_known` does, with a buffer that the caller keeps too, so that it can be used for one file
/// after the other. It has room for a byte (`room`).
pub(crate) fn load_into<S: Shelf, G: Grammar + Drop, P: FileSink<G> + Drop>(
    shelf: &mut S,
    path: &str,
    file: FileId,
    used: Used,
    reader: &mut LineReader<G>,
    file_sink: P,
    buffer: &mut [u8],
) -> Result<Found<P>, Load>
    requires right { AreTakers G.language P.stage P.meaning }
    requires begins { reader.old ≡ at_begin file (P.stage.grammar_of file)
        (G.language (P.stage.grammar_of file)).begins }
    requires bytes { used.bytes ≤ MAX_BYTES }
    requires rows { IsUnder P.stage.limit used.rows }
    requires room { 0 < length buffer.old }
    requires allowed { S.may shelf.old path.now ≡ true }
    ensures answer { (begun : P) (past : List ReadFile) (done : List (List G.Item))
        → FilesSay (format_in G.language P.stage begun) past done → P.stage.heard begun file_sink done []
        → IsKnownAnswer (format_in G.language P.stage begun) (P.stage.heard begun) (S.contents shelf.old) path.now file
        used past file_sink reader.new.known result }
    ensures within { IfOk result (IsWithin P.stage.limit) }
    ensures read { IsShelfRead (is_read_fault result) S.Shelf shelf.old shelf.new }
{
    let most = MAX_BYTES - used.bytes;
    let mut sink = RowCount {
        most: file_sink.most(),
        rows: used.rows,
        sink: file_sink,
    };
    'pieces: loop {
        match read_piece(shelf, path, file, most, reader, &mut sink, buffer) {
            Err(load) => return Err(load),
            Ok(Step::Absent) => return Ok(Found::Absent {
                file_sink: sink.sink,
            }),
            Ok(Step::End) => return end_file(file, used, reader, sink),
            Ok(Step::More) => {}
        }
    }
}

/// Reads a file out of the shelf by its path, after so many bytes and data lines of files before, and
/// has the items of its data lines taken. Of the file it keeps one piece and the line begun. A file
/// that is gone after its first piece ends there. What comes back has the file open still, where it is held.
///
/// `Refused` is the first thing wrong with the file: the first of its lines that is refused; else that
/// a header is due and none is there; else that what it said isn't enough. A line is refused, where it
/// has a byte, for the first of these: bytes past the most that are read reach it (`TooLarge`); it
/// begins with a byte order mark (`BadLine` in column 1); it isn't UTF-8; it should be the header and
/// isn't one, or is a data line and spells no item (`BadLine` in its bad column); it is a data line too
/// many, where there is a limit (`TooMany`); the file's own check. A line without a byte is counted, and
/// refused only as too large. The other errors are a read that failed and want of memory. The sink is
/// gone with an error.
///
/// The sink is one of the format (`right`), what was read before is within the limits on bytes
/// (`bytes`) and on data lines (`rows`), and the shelf may be asked for the path (`allowed`).
pub fn load_file<S: Shelf, G: Grammar + Drop, P: FileSink<G> + Drop>(
    alloc: Global,
    shelf: &mut S,
    path: &str,
    file: FileId,
    used: Used,
    file_sink: P,
) -> Result<Found<P>, Load>
    requires right { AreTakers G.language P.stage P.meaning }
    requires bytes { used.bytes ≤ MAX_BYTES }
    requires rows { IsUnder P.stage.limit used.rows }
    requires allowed { S.may shelf.old path.now ≡ true }
    ensures answer { (begun : P) (past : List ReadFile) (done : List (List G.Item))
        → FilesSay (format_in G.language P.stage begun) past done → P.stage.heard begun file_sink done []
        → IsAnswer (format_in G.language P.stage begun) (P.stage.heard begun) (S.contents shelf.old) path.now file used
        past file_sink result }
    ensures within { IfOk result (IsWithin P.stage.limit) }
    ensures read { IsShelfRead (is_read_fault result) S.Shelf shelf.old shelf.new }
{
    let mut reader = LineReader::of_file(alloc, file, file_sink.grammar(file));
    load_known(alloc, shelf, path, file, used, &mut reader, file_sink)
}

/// Does what `load_file` does, with a reader that the caller keeps, so that it can be asked in the end
/// what the header of the file said (`LineReader::known`). It is a new reader of the file (`begins`), and the
/// shelf may be asked for the path (`allowed`). After an error the reader is done with.
pub fn load_known<S: Shelf, G: Grammar + Drop, P: FileSink<G> + Drop>(
    alloc: Global,
    shelf: &mut S,
    path: &str,
    file: FileId,
    used: Used,
    reader: &mut LineReader<G>,
    file_sink: P,
) -> Result<Found<P>, Load>
    requires right { AreTakers G.language P.stage P.meaning }
    requires begins { reader.old ≡ at_begin file (P.stage.grammar_of file)
        (G.language (P.stage.grammar_of file)).begins }
    requires bytes { used.bytes ≤ MAX_BYTES }
    requires rows { IsUnder P.stage.limit used.rows }
    requires allowed { S.may shelf.old path.now ≡ true }
    ensures answer { (begun : P) (past : List ReadFile) (done : List (List G.Item))
        → FilesSay (format_in G.language P.stage begun) past done → P.stage.heard begun file_sink done []
        → IsKnownAnswer (format_in G.language P.stage begun) (P.stage.heard begun) (S.contents shelf.old) path.now file
        used past file_sink reader.new.known result }
    ensures within { IfOk result (IsWithin P.stage.limit) }
    ensures read { IsShelfRead (is_read_fault result) S.Shelf shelf.old shelf.new }
{
    let mut buffer = piece_buffer(alloc)?;
    load_into(shelf, path, file, used, reader, file_sink, &mut buffer)
}
