//! The reader of a table's file.

ghost use Rattle.std.specs.Prelude.{◌≡◌};

use crate::read::read_row;
use snb_input_fields::is_wide;
use snb_input_lines::{Grammar, LineReader, Open, Record};
use snb_schema::{FileId, FileKind, LineFault, Placed, Table, columns_of};
use std::alloc::Global;
use std::marker::Model;

/// What the lines of a table's file say: of the header only the number of fields counts, and each
/// later line is a row. The row of a friendship has the lower id first. No line of a file of another
/// kind is right.
pub struct TableLines {
    alloc: Global,
    kind: FileKind,
}

impl Drop for TableLines {
    fn drop(self) {
        let TableLines { alloc: _, kind: _ } = self;
    }
}

impl Model for TableLines {
    ghost use Rattle.snb_schema.specs.declared.file.FileKind.{FileKind};

    ghost Value = { FileKind };

    ghost view = { λ t. t.kind };
}

impl TableLines {
    /// Those of a file of this kind.
    pub fn new(alloc: Global, kind: FileKind) -> TableLines
        ensures { result ≡ kind }
    {
        TableLines { alloc, kind }
    }
}

impl Open for TableLines {
    type Named = FileId;

    ghost use Rattle.snb_csv.specs.Rows.{IsTableFile};

    ghost can_open = { IsTableFile };

    ghost file_of = { λ file. file };

    ghost grammar_of = { λ file. file.kind };

    fn file(named: FileId) -> FileId {
        named
    }

    fn open(alloc: Global, named: FileId) -> TableLines {
        TableLines::new(alloc, named.kind)
    }
}

impl Grammar for TableLines {
    type Item = Placed;

    type Known = ();

    ghost use Rattle.snb_csv.specs.Rows.{table_language};

    ghost language = { table_language };

    fn begin(&self) -> Option<()> {
        None
    }

    fn splits(&self) -> bool {
        true
    }

    fn read_header(&self, _line: &[u8], fields: &Record) -> Result<(), LineFault> {
        match self.kind {
            FileKind::Table { table } => {
                if is_wide(columns_of(table).len(), fields) {
                    Ok(())
                } else {
                    Err(LineFault::Bad { column: 0 })
                }
            }
            FileKind::PersonStream
            | FileKind::ForumStream
            | FileKind::Params { .. }
            | FileKind::Log
            | FileKind::Cases => Err(LineFault::Bad { column: 0 }),
        }
    }

    fn read_item(
        &self,
        _known: &(),
        number: u32,
        _line: &[u8],
        fields: &Record,
    ) -> Result<Placed, LineFault> {
        match self.kind {
            FileKind::Table { table } => read_row(self.alloc, table, number, fields),
            FileKind::PersonStream
            | FileKind::ForumStream
            | FileKind::Params { .. }
            | FileKind::Log
            | FileKind::Cases => Err(LineFault::Bad { column: 0 }),
        }
    }
}

/// Turns the pieces of one part of a table's file into rows: `Rows::new(alloc, file)`, where the file
/// is a table's. It is the reader of lines of `snb_input_lines`, so a line is refused for its bytes first;
/// then the first line with a byte is refused where it hasn't a field for each column, and a later one
/// in its first bad column. An extra field at the end of a line is passed over where it is empty.
pub type Rows = LineReader<TableLines>;
