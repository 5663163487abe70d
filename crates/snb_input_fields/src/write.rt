//! The one line of values.

ghost use Rattle.std.specs.Prelude.{◌≡◌, ◌++◌, ◌∷◌, [], map, OnErr, OnOk, if◌then◌else◌};
ghost use Rattle.std.specs.Fmt.{decimal};
ghost use Rattle.std.specs.Io.{StartsWith};
ghost use Rattle.std.specs.List.{join_with_byte};
ghost use Rattle.snb_schema.specs.Columns.{canonical_field, pair_text};
ghost use Rattle.snb_input_fields.specs.Cells.{value_of};

use snb_base::{Text, put_number};
use std::alloc::AllocError;

/// A value of a line that is written, lent by what has it.
#[derive(Clone, Copy)]
pub enum Cell<'a> {
    /// A number, or a date or a day in milliseconds since 1970-01-01 UTC.
    Digits(u64),
    /// A year or a length.
    SmallDigits(u32),
    /// No id.
    NoId,
    /// A text.
    Letters(&'a str),
    /// Texts in order.
    Texts(&'a [Text]),
    /// Ids in order.
    Ids(&'a [u64]),
    /// Ids with years in order.
    Pairs(&'a [(u64, u32)]),
}

// Appends a byte between two elements, so before each that isn't the first.
fn put_between(later: bool, byte: u8, line: &mut Vec<u8>) -> Result<(), AllocError>
    ensures ok { OnOk result (line.new.items ≡ line.old.items ++ (if later then byte ∷ [] else [])) }
    ensures err { OnErr result (line.new.items ≡ line.old.items) }
{
    if later {
        line.push(byte)?;
    }
    Ok(())
}

// Appends a text as it is.
#[inline(never)]
fn put_text(text: &str, line: &mut Vec<u8>) -> Result<(), AllocError>
    ensures ok { OnOk result (line.new.items ≡ line.old.items ++ text.now) }
    ensures err { OnErr result (line.new.items ≡ line.old.items) }
{
    line.extend_from_slice(text.as_bytes())
}

// Appends texts, with semicolons between them.
#[inline(never)]
fn put_texts(texts: &[Text], line: &mut Vec<u8>) -> Result<(), AllocError>
    ensures ok { OnOk result (line.new.items ≡ line.old.items ++ join_with_byte 59 texts.now) }
    ensures err { OnErr result (StartsWith line.new.items line.old.items) }
{
    for i in 0..texts.len() {
        put_between(i > 0, b';', line)?;
        line.extend_from_slice(texts[i].as_str().as_bytes())?;
    }
    Ok(())
}

// Appends ids, with semicolons between them.
#[inline(never)]
fn put_ids(ids: &[u64], line: &mut Vec<u8>) -> Result<(), AllocError>
    ensures ok { OnOk result (line.new.items ≡ line.old.items ++ join_with_byte 59 (map decimal ids.now)) }
    ensures err { OnErr result (StartsWith line.new.items line.old.items) }
{
    for i in 0..ids.len() {
        put_between(i > 0, b';', line)?;
        put_number(ids[i], line)?;
    }
    Ok(())
}

// Appends an id and a year.
fn put_pair(pair: (u64, u32), line: &mut Vec<u8>) -> Result<(), AllocError>
    ensures ok { OnOk result (line.new.items ≡ line.old.items ++ pair_text pair) }
    ensures err { OnErr result (StartsWith line.new.items line.old.items) }
{
    put_number(pair.0, line)?;
    line.push(b',')?;
    put_number(u64::from(pair.1), line)
}

// Appends ids with years, with semicolons between them.
#[inline(never)]
fn put_pairs(pairs: &[(u64, u32)], line: &mut Vec<u8>) -> Result<(), AllocError>
    ensures ok { OnOk result (line.new.items ≡ line.old.items ++ join_with_byte 59 (map pair_text pairs.now)) }
    ensures err { OnErr result (StartsWith line.new.items line.old.items) }
{
    for i in 0..pairs.len() {
        put_between(i > 0, b';', line)?;
        put_pair(pairs[i], line)?;
    }
    Ok(())
}

// Appends the canonical spelling of a value. The functions for texts and lists stay out of line, so
// that a number takes few instructions.
fn put_cell(cell: &Cell<'_>, line: &mut Vec<u8>) -> Result<(), AllocError>
    ensures ok { OnOk result (line.new.items ≡ line.old.items ++ canonical_field (value_of cell.now)) }
    ensures err { OnErr result (StartsWith line.new.items line.old.items) }
{
    match *cell {
        Cell::Digits(n) => put_number(n, line),
        Cell::SmallDigits(n) => put_number(u64::from(n), line),
        Cell::NoId => put_text("-1", line),
        Cell::Letters(text) => put_text(text, line),
        Cell::Texts(texts) => put_texts(texts, line),
        Cell::Ids(ids) => put_ids(ids, line),
        Cell::Pairs(pairs) => put_pairs(pairs, line),
    }
}

// Appends the canonical spellings of values, with bars between them.
fn put_cells(cells: &[Cell<'_>], to: &mut Vec<u8>) -> Result<(), AllocError>
    ensures ok { OnOk result
        (to.new.items ≡ to.old.items ++ join_with_byte 124 (map canonical_field (map value_of cells.now))) }
    ensures err { OnErr result (StartsWith to.new.items to.old.items) }
{
    let Some((first, later)) = cells.split_first() else {
        return Ok(());
    };
    put_cell(first, to)?;
    for cell in later {
        to.push(b'|')?;
        put_cell(cell, to)?;
    }
    Ok(())
}

/// Appends the canonical line of the values, without a line end: numbers and dates in digits, texts
/// as they are, lists in order, with bars between the fields. Without values nothing is appended.
/// Want of memory leaves the bytes as they were.
///
/// Where fields of some line spell these values, the law `own_line` says that this one spells them
/// too.
pub fn put_fields(cells: &[Cell<'_>], to: &mut Vec<u8>) -> Result<(), AllocError>
    ensures ok { OnOk result
        (to.new.items ≡ to.old.items ++ join_with_byte 124 (map canonical_field (map value_of cells.now))) }
    ensures err { OnErr result (to.new.items ≡ to.old.items) }
{
    let start = to.len();
    let put = put_cells(cells, to);
    if put.is_err() {
        to.truncate(start);
    }
    put
}

/// Appends the canonical line of the values and its line end: the fields as `put_fields` appends
/// them, and a line feed. Want of memory leaves the bytes as they were.
pub fn put_line(cells: &[Cell<'_>], to: &mut Vec<u8>) -> Result<(), AllocError>
    ensures ok { OnOk result
        (to.new.items ≡ to.old.items ++
        (join_with_byte 124 (map canonical_field (map value_of cells.now)) ++ 10 ∷ [])) }
    ensures err { OnErr result (to.new.items ≡ to.old.items) }
{
    let start = to.len();
    put_fields(cells, to)?;
    if to.push(b'\n').is_err() {
        to.truncate(start);
        return Err(AllocError);
    }
    Ok(())
}
