//! The reading of a log.

ghost use Rattle.std.specs.Prelude.{◌≡◌, IfOk, true};
ghost use Rattle.snb_base.specs.Reads.{IsShelfRead};
ghost use Rattle.snb_input_files.specs.Loading.{is_read_fault};
ghost use Rattle.snb_audit_model.specs.LogFiles.{IsAuditable, IsLogAnswer};

use crate::file_sink::{LogFileSink, log_is_lawful};
use snb_audit_model::Log;
use snb_base::Shelf;
use snb_input_files::{Found, Load, Used, load_known};
use snb_input_lines::LineReader;
use snb_runlog::{LogLines, counts_are_in_version_2};
use snb_schema::{FileId, FileKind, Refusal};
use std::alloc::Global;

/// Reads the log of this path, of version 1 or 2. It is read in pieces, and of what was read the header and
/// the events with their counts are kept alone. A log has 268,435,456 bytes at most, from one to
/// `MAX_WORKERS` workers, and no moment after `MAX_AT`; a count of operations exactly in version 2, and a
/// count of rows exactly at each Finish of version 2.
///
/// `Refused` is the first thing wrong: it isn't held (`Absent`); the first of its lines that is refused;
/// no line has a byte (`NoHeader`). A line is refused, where it has a byte, for the first of these: bytes
/// past the most that are read reach it (`TooLarge`); it begins with a byte order mark (`BadLine` in
/// column 1); it isn't UTF-8 (`NotUtf8`); its bad column (`BadLine`), as that of the header where it is
/// the first line with a byte, else as that of an event. A line without a byte is refused only as too
/// large. `ReadFault` is a read that failed, and `Memory` want of memory.
///
/// The shelf may be asked for the path (`allowed`).
pub fn load_log<S: Shelf>(alloc: Global, shelf: &mut S, path: &str) -> Result<Log, Load>
    requires allowed { S.may shelf.old path.now ≡ true }
    ensures answer { IsLogAnswer (S.contents shelf.old) path.now result }
    ensures auditable { IfOk result IsAuditable }
    ensures read { IsShelfRead (is_read_fault result) S.Shelf shelf.old shelf.new }
{
    log_is_lawful();
    counts_are_in_version_2();
    let file = FileId {
        kind: FileKind::Log,
        part: 0,
    };
    let none = Used { bytes: 0, rows: 0 };
    let file_sink = LogFileSink::new(alloc);
    let mut reader = LineReader::of_file(alloc, file, LogLines {});
    match load_known::<S, LogLines, LogFileSink>(
        alloc,
        shelf,
        path,
        file,
        none,
        &mut reader,
        file_sink,
    ) {
        Err(load) => Err(load),
        Ok(Found::Absent { file_sink: _ }) => Err(Load::Refused {
            refusal: Refusal::Absent { file },
        }),
        Ok(Found::Whole { file_sink, used: _ }) => match reader.known() {
            Some(head) => Ok(Log {
                header: *head,
                logged: file_sink.into_logged(),
            }),
            None => unreachable!(),
        },
    }
}
