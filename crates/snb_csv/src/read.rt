//! The row that the fields of a line spell.

ghost use Rattle.std.specs.Prelude.{◌≡◌, All, IfOk, IsUtf8};
ghost use Rattle.snb_schema.specs.Faults.{OnBadColumn};
ghost use Rattle.snb_schema.specs.RowLines.{IsBadColumn, SpellsRow};

use crate::make::{make_friends, make_row};
use snb_input_fields::{FieldReader, is_wide};
use snb_input_lines::Record;
use snb_schema::{LineFault, Placed, Table, columns_of, is_undirected};
use std::alloc::Global;

/// The row of the table that the fields of the line of this number spell. That of a friendship has the
/// lower id first. An extra field at the end is passed over where it is empty. Where the fields spell
/// none, the error is the first bad column: 0 where they aren't one for each column; else 2 where a
/// friendship leads back to the person it comes from; else the first that isn't in its grammar. The
/// other error is want of memory.
///
/// The fields are UTF-8.
pub fn read_row(
    alloc: Global,
    table: Table,
    line: u32,
    fields: &Record,
) -> Result<Placed, LineFault>
    requires { All IsUtf8 fields.now }
    ensures ok { IfOk result (λ p. SpellsRow table fields.now p.row p.turned × (p.line ≡ line)) }
    ensures bad { OnBadColumn result (IsBadColumn table fields.now) }
{
    let columns = columns_of(table);
    if !is_wide(columns.len(), fields) {
        return Err(LineFault::Bad { column: 0 });
    }
    let mut reader = FieldReader::new(alloc, columns, fields);
    if is_undirected(table) {
        return make_friends(table, line, &mut reader);
    }
    Ok(Placed {
        line,
        row: make_row(table, &mut reader)?,
        turned: false,
    })
}
