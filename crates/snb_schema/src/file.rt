//! The files of an input, and their names.

ghost use Rattle.std.specs.Prelude.{◌≡◌, ◌++◌, IfOk, OnOk, OnErr, string_bytes};
ghost use Rattle.snb_schema.specs.FileNames.{name_of, table_text};

use crate::layout::layout_of;
use crate::table::Table;
use std::alloc::{AllocError, Global};

/// What a file holds.
#[derive(Clone, Copy)]
pub enum FileKind {
    /// A part of a table of the dataset.
    Table { table: Table },
    /// A stream of inserts of persons and friendships.
    PersonStream,
    /// A stream of the other inserts.
    ForumStream,
    /// Parameters of a complex read.
    Params { query: u32 },
    /// The log of a run.
    Log,
    /// Validation cases.
    Cases,
}

/// A file of an input: its kind, and which of its kind it is, counted from 0.
#[derive(Clone, Copy)]
pub struct FileId {
    pub kind: FileKind,
    pub part: u32,
}

/// The name of the table, by which its files are named.
pub fn table_name(table: Table) -> &'static str
    ensures { result.now ≡ table_text table }
{
    layout_of(table).name
}

/// The name of the file, without its folder, as a text of its own.
pub fn name_text(alloc: Global, file: FileId) -> Result<String, AllocError>
    ensures { IfOk result (λ name. string_bytes name ≡ name_of file) }
{
    let part = file.part;
    match file.kind {
        FileKind::Table { table } => {
            let name = table_name(table);
            Ok(format!(in alloc; "{name}_{part}_0.csv")?)
        }
        FileKind::PersonStream => Ok(format!(in alloc; "updateStream_0_{part}_person.csv")?),
        FileKind::ForumStream => Ok(format!(in alloc; "updateStream_0_{part}_forum.csv")?),
        FileKind::Params { query } => Ok(format!(in alloc; "interactive_{query}_param.txt")?),
        FileKind::Log => String::from_str(alloc, "log"),
        FileKind::Cases => String::from_str(alloc, "cases"),
    }
}

/// Appends the name of the file, without its folder: that of a part of a table, of a stream, of a
/// parameter file, `log` or `cases`. Want of memory leaves the bytes as they were.
pub fn file_name(file: FileId, to: &mut Vec<u8>) -> Result<(), AllocError>
    ensures ok { OnOk result (to.new.items ≡ to.old.items ++ name_of file) }
    ensures err { OnErr result (to.new.items ≡ to.old.items) }
{
    let name = name_text(*to.allocator(), file)?;
    to.extend_from_slice(name.as_bytes())
}
