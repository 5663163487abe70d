//! The reader of an update stream.

ghost use Rattle.std.specs.Prelude.{◌≡◌, ◌+◌, ◌≤◌, length, OnOk, OnErr, None, false};
ghost use Rattle.snb_schema.specs.declared.limits.TheConstants.{MAX_BYTES};
ghost use Rattle.snb_schema.specs.Faults.{OnBad};
ghost use Rattle.snb_input_lines.specs.Feeding.{HasRead, HasRunOut, HasStopped, HasStoppedAtEnd, IsSameFile, KeepsFault, OnMemory, at_file_end, fed_more, left_lines, new_lines};
ghost use Rattle.snb_streams.specs.Lines.{stream_language};
ghost use Rattle.snb_streams.specs.Order.{FallsBehind, Follows, IsUnmoved, never_ends, ordered};
ghost use Rattle.snb_streams.specs.Updates.{IsStream, allowed_in, before_stream};

use crate::line::{FORUM_INSERTS, PERSON_INSERTS};
use crate::lines::StreamLines;
use crate::order::InOrder;
use snb_input_lines::LineReader;
use snb_schema::{Fault, FileId, FileKind, InsertKind, Line};
use std::alloc::Global;
use std::marker::Model;
use std::mem;

/// The inserts that the lines of a kind of file may be: those of a person stream, those of a forum
/// stream, and none of any other file.
pub fn inserts_of(kind: FileKind) -> &'static [InsertKind]
    ensures { result.now ≡ allowed_in kind }
{
    match kind {
        FileKind::PersonStream => &PERSON_INSERTS,
        FileKind::ForumStream => &FORUM_INSERTS,
        FileKind::Table { .. } | FileKind::Params { .. } | FileKind::Log | FileKind::Cases => &[],
    }
}

/// Turns the pieces of an update stream into inserts. It is the reader of lines of `snb_input_lines`, so a
/// line is refused for its bytes first, then in its first bad column as `read_insert` has it, with the
/// inserts of its kind of stream, and as `OutOfOrder` exactly where its t is below that of the line
/// before. A stream has no header.
pub struct Updates {
    alloc: Global,
    lines: LineReader<StreamLines>,
    last: u64,
}

impl Drop for Updates {
    fn drop(self) {
        let Updates {
            alloc: _,
            lines: _,
            last: _,
        } = self;
    }
}

impl Model for Updates {
    ghost use Rattle.snb_streams.specs.Updates.{Followed};

    ghost Value = { Followed };

    ghost view = { λ s. record { reader = s.lines; last = s.last } };
}

impl Updates {
    /// A reader of the stream from its first byte on. The file is a stream. Takes no memory.
    pub fn new(alloc: Global, file: FileId) -> Updates
        requires { IsStream file }
        ensures { result ≡ before_stream file }
    {
        Updates {
            alloc,
            lines: LineReader::of_file(alloc, file, StreamLines::new(alloc, file.kind)),
            last: 0,
        }
    }

    /// How many bytes the reader was fed.
    pub fn fed(&self) -> u64
        ensures { result ≡ self.now.reader.fed }
    {
        self.lines.fed()
    }

    /// How many lines have ended, as long as the reader keeps no fault.
    pub fn ended(&self) -> u32
        ensures { result ≡ self.now.reader.ended }
    {
        self.lines.ended()
    }

    /// The t of the last line, or 0 before the first.
    pub fn last(&self) -> u64
        ensures { result ≡ self.now.last }
    {
        self.last
    }

    /// Takes the next piece of the file, and appends the inserts of the lines that end in it, each line
    /// at its `\n` and numbered from 1. The pieces may be cut anywhere, and are 268,435,456 bytes at most
    /// together. None follows an `end` that answered Ok.
    ///
    /// The error is the first line that is refused, or want of memory. The inserts of the lines before it
    /// are appended. From then on the reader answers that error, and appends nothing.
    pub fn feed(&mut self, piece: &[u8], into: &mut Vec<Line>) -> Result<(), Fault>
        requires bytes { self.old.reader.fed + length piece.now ≤ MAX_BYTES }
        requires goes_on { self.old.reader.over ≡ false }
        ensures kept { KeepsFault result
            self.old.reader (ordered self.old.last into.old.items)
            self.new.reader (ordered self.new.last into.new.items) }
        ensures was_good { OnOk result (self.old.reader.fault ≡ None) }
        ensures ok { OnOk result
            (HasRead (stream_language self.old.reader.grammar) Follows
            (new_lines self.old.reader piece.now)
            self.old.reader (ordered self.old.last into.old.items)
            self.new.reader (ordered self.new.last into.new.items)) }
        ensures after { OnOk result
            (self.new.reader ≡ fed_more self.old.reader piece.now self.new.reader.known) }
        ensures bad { self.old.reader.fault ≡ None → OnBad result
            (HasStopped (stream_language self.old.reader.grammar) Follows FallsBehind IsUnmoved
            (new_lines self.old.reader piece.now)
            self.old.reader (ordered self.old.last into.old.items)
            self.new.reader (ordered self.new.last into.new.items)) }
        ensures memory { self.old.reader.fault ≡ None → OnMemory result
            (HasRunOut (stream_language self.old.reader.grammar) Follows IsUnmoved
            (new_lines self.old.reader piece.now)
            self.old.reader (ordered self.old.last into.old.items)
            self.new.reader (ordered self.new.last into.new.items)) }
        ensures same { OnErr result (IsSameFile self.old.reader self.new.reader) }
    {
        let list = mem::replace(into, Vec::new(self.alloc));
        let mut sink = InOrder {
            last: self.last,
            sink: list,
        };
        let fed = self.lines.feed_to(piece, &mut sink);
        self.last = sink.last;
        *into = sink.sink;
        fed
    }

    /// Ends the file, and appends the insert of a last line without a `\n`, where it has a byte. No `end`
    /// before it answered Ok. Once this has answered Ok, the reader is fed and ended no more.
    ///
    /// The error is that last line, where it is refused, or want of memory. It is kept as an error of
    /// `feed` is.
    pub fn end(&mut self, into: &mut Vec<Line>) -> Result<(), Fault>
        requires goes_on { self.old.reader.over ≡ false }
        ensures kept { KeepsFault result
            self.old.reader (ordered self.old.last into.old.items)
            self.new.reader (ordered self.new.last into.new.items) }
        ensures was_good { OnOk result (self.old.reader.fault ≡ None) }
        ensures ok { OnOk result
            (HasRead (stream_language self.old.reader.grammar) Follows
            (left_lines self.old.reader)
            self.old.reader (ordered self.old.last into.old.items)
            self.new.reader (ordered self.new.last into.new.items)) }
        ensures after { OnOk result
            (self.new.reader ≡ at_file_end self.old.reader self.new.reader.known) }
        ensures bad { self.old.reader.fault ≡ None → OnBad result
            (HasStoppedAtEnd (stream_language self.old.reader.grammar)
            Follows FallsBehind IsUnmoved never_ends
            (left_lines self.old.reader)
            self.old.reader (ordered self.old.last into.old.items)
            self.new.reader (ordered self.new.last into.new.items)) }
        ensures memory { self.old.reader.fault ≡ None → OnMemory result
            (HasRunOut (stream_language self.old.reader.grammar) Follows IsUnmoved
            (left_lines self.old.reader)
            self.old.reader (ordered self.old.last into.old.items)
            self.new.reader (ordered self.new.last into.new.items)) }
        ensures same { OnErr result (IsSameFile self.old.reader self.new.reader) }
    {
        let list = mem::replace(into, Vec::new(self.alloc));
        let mut sink = InOrder {
            last: self.last,
            sink: list,
        };
        let ended = self.lines.end_to(&mut sink);
        self.last = sink.last;
        *into = sink.sink;
        ended
    }
}
