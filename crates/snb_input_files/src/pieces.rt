//! The pieces of a file, fed to its reader as they come.

ghost use Rattle.std.specs.Prelude.{◌≡◌, ◌+◌, ◌<◌, ◌≤◌, IfOk, OnOk, length, None, false, true};
ghost use Rattle.snb_base.specs.Reads.{IsShelfRead};
ghost use Rattle.snb_schema.specs.declared.limits.TheConstants.{MAX_BYTES};
ghost use Rattle.snb_input_files.specs.Format.{AreTakers, format_in};
ghost use Rattle.snb_input_files.specs.Loading.{is_read_fault};
ghost use Rattle.snb_input_files.specs.Pieces.{IsBadPiece, IsFedMore, IsStep, OnRefused};

use crate::file_sink::FileSink;
use crate::load::Load;
use snb_base::{Got, Shelf};
use snb_input_lines::{Grammar, LineReader, RowCount};
use snb_schema::{FileId, MAX_BYTES, Refusal};

/// What a read of a file was.
#[derive(Clone, Copy)]
pub enum Step {
    /// A piece more was fed.
    More,
    /// The file ends.
    End,
    /// The file isn't held.
    Absent,
}

// Feeds the reader the next piece of a file, of which `most` bytes may be read. The error is the first
// line that is refused, which is the one that too many bytes reach where the piece goes on beyond
// them, or want of memory.
fn feed_piece<G: Grammar + Drop, P: FileSink<G> + Drop>(
    file: FileId,
    most: u64,
    reader: &mut LineReader<G>,
    sink: &mut RowCount<P>,
    piece: &[u8],
) -> Result<(), Load>
    requires right { AreTakers G.language P.stage P.meaning }
    requires of_file { reader.old.file ≡ file }
    requires by_grammar { reader.old.grammar ≡ P.stage.grammar_of file }
    requires most { most ≤ MAX_BYTES }
    requires few { reader.old.fed ≤ most }
    requires goes_on { reader.old.over ≡ false }
    requires good { reader.old.fault ≡ None }
    ensures ok { (begun : P)
        → OnOk result
        (IsFedMore (format_in G.language P.stage begun) P.meaning.takes file (P.stage.grammar_of file) reader.old
        sink.old piece.now reader.new sink.new) }
    ensures fed { OnOk result (reader.new.fed ≡ reader.old.fed + length piece.now) }
    ensures few { OnOk result (reader.new.fed ≤ most) }
    ensures goes_on { OnOk result (reader.new.over ≡ false) }
    ensures good { OnOk result (reader.new.fault ≡ None) }
    ensures of_file { reader.new.file ≡ file }
    ensures by_grammar { reader.new.grammar ≡ P.stage.grammar_of file }
    ensures refused { (begun : P) → OnRefused result
        (IsBadPiece (format_in G.language P.stage begun) (P.stage.heard begun) P.meaning.takes file
        (P.stage.grammar_of file) most reader.old sink.old piece.now) }
    ensures fault { is_read_fault result ≡ false }
{
    let kept = piece.len().min((most - reader.fed()) as usize);
    match reader.feed_to(&piece[..kept], sink) {
        Err(fault) => Err(Load::from(fault)),
        Ok(()) => {
            if kept < piece.len() {
                return Err(Load::Refused {
                    refusal: Refusal::TooLarge { file },
                });
            }
            Ok(())
        }
    }
}

/// Reads the next piece of a file, of which `most` bytes may be read, and feeds it to the reader: more
/// bytes of it, its end, or that it isn't held. A file that is gone after its first piece ends there.
/// The error is the first line that is refused, a read that failed, or want of memory.
///
/// The sink is one of the format (`right`). The reader is of the file, by its grammar (`of_file`, `by_grammar`). No
/// more than the most bytes of an input may be read (`most`), and no more than these were (`few`); the reader has
/// neither ended (`goes_on`) nor stopped (`good`). The buffer has room for a byte (`room`), and the shelf may be
/// asked for the name (`allowed`).
pub fn read_piece<S: Shelf, G: Grammar + Drop, P: FileSink<G> + Drop>(
    shelf: &mut S,
    name: &str,
    file: FileId,
    most: u64,
    reader: &mut LineReader<G>,
    sink: &mut RowCount<P>,
    buffer: &mut [u8],
) -> Result<Step, Load>
    requires right { AreTakers G.language P.stage P.meaning }
    requires of_file { reader.old.file ≡ file }
    requires by_grammar { reader.old.grammar ≡ P.stage.grammar_of file }
    requires most { most ≤ MAX_BYTES }
    requires few { reader.old.fed ≤ most }
    requires goes_on { reader.old.over ≡ false }
    requires good { reader.old.fault ≡ None }
    requires room { 0 < length buffer.old }
    requires allowed { S.may shelf.old name.now ≡ true }
    ensures step { (begun : P) → IsStep (format_in G.language P.stage begun) (P.stage.heard begun) P.meaning.takes
        (S.contents shelf.old) name.now file (P.stage.grammar_of file) most
        reader.old sink.old reader.new sink.new result }
    ensures more { IfOk result (λ step. step ≡ Step.More → reader.old.fed < reader.new.fed) }
    ensures few { OnOk result (reader.new.fed ≤ most) }
    ensures goes_on { OnOk result (reader.new.over ≡ false) }
    ensures good { OnOk result (reader.new.fault ≡ None) }
    ensures of_file { reader.new.file ≡ file }
    ensures by_grammar { reader.new.grammar ≡ P.stage.grammar_of file }
    ensures read { IsShelfRead (is_read_fault result) S.Shelf shelf.old shelf.new }
{
    match shelf.read(name, reader.fed(), buffer) {
        Got::Failed => Err(Load::ReadFault),
        // A file that was there at first and isn't any longer ends here.
        Got::Absent => {
            if reader.fed() == 0 {
                Ok(Step::Absent)
            } else {
                Ok(Step::End)
            }
        }
        Got::Took { count } => {
            if count == 0 {
                return Ok(Step::End);
            }
            match feed_piece(file, most, reader, sink, &buffer[..count]) {
                Err(load) => Err(load),
                Ok(()) => Ok(Step::More),
            }
        }
    }
}
