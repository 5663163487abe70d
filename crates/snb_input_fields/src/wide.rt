//! How many fields a line has.

ghost use Rattle.std.specs.Prelude.{◌↔◌, IsTrue};
ghost use Rattle.snb_schema.specs.RowValues.{IsWide};

use snb_input_lines::Record;

/// A line has fewer columns than so many.
pub const COLUMNS_END: usize = 1000;

/// Whether there are so many fields, or one more that is empty.
pub fn is_wide(count: usize, fields: &Record) -> bool
    ensures { IsTrue result ↔ IsWide count fields.now }
{
    let found = fields.len();
    match fields.get(count) {
        Some(extra) => found == count + 1 && extra.is_empty(),
        None => found == count,
    }
}
