//! What the lines of an update stream say.

ghost use Rattle.std.specs.Prelude.{◌≡◌};

use crate::line::read_insert;
use crate::updates::inserts_of;
use snb_input_lines::{Grammar, Record};
use snb_schema::{FileKind, Line, LineFault};
use std::alloc::Global;
use std::marker::Model;

/// What the lines of a stream say: each is an insert of the stream's kind. A stream has no header.
pub struct StreamLines {
    alloc: Global,
    kind: FileKind,
}

impl Drop for StreamLines {
    fn drop(self) {
        let StreamLines { alloc: _, kind: _ } = self;
    }
}

impl Model for StreamLines {
    ghost use Rattle.snb_schema.specs.declared.file.FileKind.{FileKind};

    ghost Value = { FileKind };

    ghost view = { λ s. s.kind };
}

impl StreamLines {
    /// Those of a stream of this kind.
    pub fn new(alloc: Global, kind: FileKind) -> StreamLines
        ensures { result ≡ kind }
    {
        StreamLines { alloc, kind }
    }
}

impl Grammar for StreamLines {
    type Item = Line;

    type Known = ();

    ghost use Rattle.snb_streams.specs.Lines.{stream_language};

    ghost language = { stream_language };

    fn begin(&self) -> Option<()> {
        Some(())
    }

    fn splits(&self) -> bool {
        true
    }

    fn read_header(&self, _line: &[u8], _fields: &Record) -> Result<(), LineFault> {
        Err(LineFault::Bad { column: 0 })
    }

    fn read_item(
        &self,
        _known: &(),
        number: u32,
        _line: &[u8],
        fields: &Record,
    ) -> Result<Line, LineFault> {
        read_insert(self.alloc, inserts_of(self.kind), number, fields)
    }
}
