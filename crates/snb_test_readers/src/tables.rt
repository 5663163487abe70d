//! The call that reads a file of a table, and writes its rows again.

ghost use Rattle.std.specs.Prelude.{◌+◌, ◌≤◌, length};
ghost use Rattle.snb_schema.specs.declared.limits.TheConstants.{MAX_BYTES};

use crate::feeding::{Feeds, told_fed};
use crate::pieces::{Reads, told_cut};
use snb_csv::{Rows, write_row};
use snb_graph_model::tables_in_order;
use snb_schema::{Fault, FileId, FileKind, Placed, Table, table_name};
use snb_test_script::{Files, Flaw, first_word, shown};
use std::alloc::{AllocError, Global};

impl Feeds for Rows {
    type Item = Placed;

    ghost fed = { λ rows. rows.fed };

    ghost over = { λ rows. rows.over };

    fn take(&mut self, piece: &[u8], into: &mut Vec<Placed>) -> Result<(), Fault> {
        self.feed(piece, into)
    }

    fn finish(&mut self, into: &mut Vec<Placed>) -> Result<(), Fault> {
        self.end(into)
    }

    fn told_item(&self, alloc: Global, item: &Placed) -> Result<String, Flaw> {
        let mut written = Vec::new(alloc);
        write_row(&item.row, &mut written)?;
        let text = shown(alloc, written.as_slice())?;
        let text = text.as_str();
        let line = item.line;
        Ok(format!(in alloc; "{line} {text}")?)
    }

    fn told_end(&self, alloc: Global) -> Result<String, AllocError> {
        Ok(String::new(alloc))
    }
}

// Reads a part of this table.
#[derive(Clone, Copy)]
struct PartOf {
    table: Table,
}

impl Reads for PartOf {
    fn told(&self, alloc: Global, first: &[u8], second: &[u8]) -> Result<String, Flaw> {
        let file = FileId {
            kind: FileKind::Table { table: self.table },
            part: 0,
        };
        told_fed(alloc, &mut Rows::new(alloc, file), first, second)
    }
}

// The table of this name.
fn table_of(name: &str) -> Result<Table, Flaw> {
    for table in tables_in_order() {
        if table_name(*table) == name {
            return Ok(*table);
        }
    }
    Err(Flaw::NoName)
}

/// `table_rows TABLE FILE`
pub(crate) fn table_rows(alloc: Global, files: &Files, rest: &str) -> Result<String, Flaw> {
    let (table, file) = first_word(rest);
    let table = table_of(table)?;
    told_cut(alloc, &PartOf { table }, files.bytes(file)?)
}
