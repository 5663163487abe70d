//! The fields of a text that is one line.

ghost use Rattle.std.specs.Prelude.{◌↔◌, IfOk, IsTrue, IsUtf8};
ghost use Rattle.snb_schema.specs.Faults.{OnBadColumn};
ghost use Rattle.snb_schema.specs.Lines.{HasNoEnd};
ghost use Rattle.snb_schema.specs.UpdateLines.{IsBadLine};
ghost use Rattle.snb_streams.specs.Split.{IsSplit};

use snb_columns::plain_fields;
use snb_input_lines::{Record, cut_at_end, is_marked, split_line};
use snb_schema::LineFault;
use std::alloc::Global;
use std::str;

// Whether the text is one line of UTF-8.
fn is_one_line(text: &[u8]) -> bool
    ensures { IsTrue result ↔ (IsUtf8 text.now × HasNoEnd text.now) }
{
    match cut_at_end(text) {
        Some(_) => false,
        None => str::from_utf8(text).is_ok(),
    }
}

/// Splits a text at its bars, where it is one line of UTF-8 that has a byte and doesn't begin with a
/// byte order mark.
pub fn fields_in(alloc: Global, text: &[u8]) -> Result<Record, LineFault>
    ensures ok { IfOk result (λ row. IsSplit text.now row) }
    ensures bad { OnBadColumn result (IsBadLine text.now) }
{
    if is_marked(text) {
        return Err(LineFault::Bad { column: 1 });
    }
    if !is_one_line(text) {
        return Err(LineFault::Bad { column: 0 });
    }
    if text.is_empty() {
        return Err(LineFault::Bad { column: 0 });
    }
    plain_fields();
    let mut fields = Record::new(alloc);
    split_line(text, &mut fields)?;
    Ok(fields)
}
