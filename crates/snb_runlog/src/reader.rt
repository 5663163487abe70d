//! The reader of a log.

ghost use Rattle.std.specs.Prelude.{◌≡◌, ◌+◌, ◌≤◌, length, IfOk, OnOk, OnErr, None, Some, false};
ghost use Rattle.snb_schema.specs.declared.limits.TheConstants.{MAX_BYTES};
ghost use Rattle.snb_schema.specs.Faults.{OnBad};
ghost use Rattle.snb_input_lines.specs.Feeding.{IsSameFile, KeepsFault, OnMemory, at_begin, at_file_end, fed_more, left_lines, new_lines};
ghost use Rattle.snb_input_lines.specs.Lists.{HasAppended, HasAppendedSome, HasStoppedAfter, HasStoppedAfterAll};
ghost use Rattle.snb_runlog.specs.Columns.{CanBeHeader, HasOperations};
ghost use Rattle.snb_runlog.specs.Lines.{log_file, log_language};

use crate::grammar::LogLines;
use snb_history::{Header, Logged};
use snb_input_lines::LineReader;
use snb_schema::{Fault, FileId, FileKind};
use std::alloc::Global;
use std::marker::Model;

/// Turns the pieces of a log, which are cut anywhere, into what its lines tell: it is the reader of lines of
/// `snb_input_lines` by `LogLines`. Either version is read. Of what it was fed it keeps the line begun
/// alone.
pub struct LogReader {
    lines: LineReader<LogLines>,
}

impl Drop for LogReader {
    fn drop(self) {
        let LogReader { lines: _ } = self;
    }
}

impl Model for LogReader {
    ghost use Rattle.snb_history.specs.declared.logged.Header.{Header as Head};
    ghost use Rattle.snb_input_lines.specs.Feeding.{Reader};
    ghost use Rattle.snb_runlog.specs.declared.grammar.LogLines.{LogLines as Lines};

    ghost Value = { Reader Lines Head };

    ghost use Rattle.snb_runlog.specs.Reading.{KnowsHeader};

    ghost view = { λ s. s.lines };

    ghost invariant = { λ s. KnowsHeader s.lines };
}

impl LogReader {
    /// A reader of a log, from its first byte on. Takes no memory.
    pub fn new(alloc: Global) -> LogReader
        ensures { result ≡ at_begin log_file result.grammar None }
    {
        let file = FileId {
            kind: FileKind::Log,
            part: 0,
        };
        LogReader {
            lines: LineReader::of_file(alloc, file, LogLines {}),
        }
    }

    /// Takes the next piece of the log, and appends what the lines tell that end in it, each line at its
    /// `\n` and numbered from 1. The pieces are 268,435,456 bytes at most together. None follows an `end`
    /// that answered Ok.
    ///
    /// The error is the first line that is refused, or want of memory. What the lines before it tell is
    /// appended. From then on the reader answers that error, and appends nothing.
    pub fn feed(&mut self, piece: &[u8], into: &mut Vec<Logged>) -> Result<(), Fault>
        requires bytes { self.old.fed + length piece.now ≤ MAX_BYTES }
        requires goes_on { self.old.over ≡ false }
        ensures kept { KeepsFault result self.old into.old self.new into.new }
        ensures was_good { OnOk result (self.old.fault ≡ None) }
        ensures ok { OnOk result
            (HasAppended log_language (new_lines self.old piece.now) self.old into.old.items self.new into.new.items) }
        ensures after { OnOk result (self.new ≡ fed_more self.old piece.now self.new.known) }
        ensures bad { self.old.fault ≡ None → OnBad result
            (HasStoppedAfter log_language (new_lines self.old piece.now) self.old into.old.items self.new
            into.new.items) }
        ensures memory { self.old.fault ≡ None → OnMemory result
            (HasAppendedSome log_language (new_lines self.old piece.now) self.old into.old.items self.new
            into.new.items) }
        ensures same { OnErr result (IsSameFile self.old self.new) }
    {
        self.lines.feed(piece, into)
    }

    /// Ends the log, and appends what a last line without a `\n` tells, where it has a byte; answers what
    /// the header said, which is a header that a log can have. No `end` before it answered Ok. Once this
    /// has answered Ok, the reader is fed and ended no more.
    ///
    /// The error is that last line, where it is refused, or that a header is due, or want of memory. It is
    /// kept as an error of `feed` is.
    pub fn end(&mut self, into: &mut Vec<Logged>) -> Result<Header, Fault>
        requires goes_on { self.old.over ≡ false }
        ensures kept { KeepsFault result self.old into.old self.new into.new }
        ensures was_good { OnOk result (self.old.fault ≡ None) }
        ensures ok { OnOk result
            (HasAppended log_language (left_lines self.old) self.old into.old.items self.new into.new.items) }
        ensures header { IfOk result (λ head. self.new.known ≡ Some head) }
        ensures fits { IfOk result CanBeHeader }
        ensures counted { IfOk result HasOperations }
        ensures after { OnOk result (self.new ≡ at_file_end self.old self.new.known) }
        ensures bad { self.old.fault ≡ None → OnBad result
            (HasStoppedAfterAll log_language (left_lines self.old) self.old into.old.items self.new into.new.items) }
        ensures memory { self.old.fault ≡ None → OnMemory result
            (HasAppendedSome log_language (left_lines self.old) self.old into.old.items self.new into.new.items) }
        ensures same { OnErr result (IsSameFile self.old self.new) }
    {
        self.lines.end(into)?;
        match self.lines.known() {
            Some(head) => Ok(*head),
            None => unreachable!(),
        }
    }
}
