//! The cells of rows.

ghost use Rattle.std.specs.Prelude.{◌≡◌, ℕ, List, IfOk, MatchOption, map};
ghost use Rattle.std.specs.List.{AllZip};
ghost use Rattle.serde_json.specs.View.{view};
ghost use Rattle.snb_read_model.specs.Cells.{ByteCell as AnyCell};
ghost use Rattle.snb_schema.specs.declared.query.CellKind.TheVariants.{Number, Flag, Words as WordsColumn, Texts as TextsColumn, Stays as StaysColumn};
ghost use Rattle.snb_validation_cases.specs.Replies.{AreStay, IsCellIn, IsStayData, IsStayOf};
ghost use Rattle.snb_validation_cases.specs.Values.{IsArray};

use crate::values::{items_in, number_in, text_in, texts_in};
use serde_json::Value;
use snb_base::Text;
use snb_read_model::{Cell, CellKind, Stays};
use snb_schema::MAX_YEAR;
use std::alloc::{AllocError, Global};

// The number that a value is.
fn integer_in(value: &Value) -> Option<Cell<Text>>
    ensures { MatchOption result ((cell : AnyCell) → ¬ IsCellIn Number (view value.now) cell)
        (IsCellIn Number (view value.now)) }
{
    match value.as_i64() {
        Some(value) => Some(Cell::Number { value }),
        None => None,
    }
}

// The truth value that a value is.
fn flag_in(value: &Value) -> Option<Cell<Text>>
    ensures { MatchOption result ((cell : AnyCell) → ¬ IsCellIn Flag (view value.now) cell)
        (IsCellIn Flag (view value.now)) }
{
    match value.as_bool() {
        Some(value) => Some(Cell::Flag { value }),
        None => None,
    }
}

// The text that a value is.
fn words_in(alloc: Global, value: &Value) -> Result<Option<Cell<Text>>, AllocError>
    ensures { IfOk result (λ found. MatchOption found
        ((cell : AnyCell) → ¬ IsCellIn WordsColumn (view value.now) cell)
        (IsCellIn WordsColumn (view value.now))) }
{
    match text_in(alloc, value)? {
        Some(text) => Ok(Some(Cell::Words { text })),
        None => Ok(None),
    }
}

// The texts that a value is.
fn list_in(alloc: Global, value: &Value) -> Result<Option<Cell<Text>>, AllocError>
    ensures { IfOk result (λ found. MatchOption found
        ((cell : AnyCell) → ¬ IsCellIn TextsColumn (view value.now) cell)
        (IsCellIn TextsColumn (view value.now))) }
{
    match texts_in(alloc, value)? {
        Some(texts) => Ok(Some(Cell::List { texts })),
        None => Ok(None),
    }
}

// The stay that three values are.
fn stay_of(
    alloc: Global,
    name: &Value,
    year: &Value,
    place: &Value,
) -> Result<Option<(Text, u32, Text)>, AllocError>
    ensures { IfOk result (λ found. MatchOption found
        ((stay : List ℕ × ℕ × List ℕ) → ¬ IsStayOf (view name.now) (view year.now) (view place.now) stay)
        (IsStayOf (view name.now) (view year.now) (view place.now))) }
{
    let Some(year) = number_in(year, u64::from(MAX_YEAR)) else {
        return Ok(None);
    };
    let Some(name) = text_in(alloc, name)? else {
        return Ok(None);
    };
    let Some(place) = text_in(alloc, place)? else {
        return Ok(None);
    };
    Ok(Some((name, year as u32, place)))
}

// The stay that these values are.
fn stay_of_items(alloc: Global, items: &[Value]) -> Result<Option<(Text, u32, Text)>, AllocError>
    ensures { IfOk result (λ found. MatchOption found
        ((stay : List ℕ × ℕ × List ℕ) → ¬ AreStay (map view items.now) stay)
        (AreStay (map view items.now))) }
{
    match items {
        [name, year, place] => stay_of(alloc, name, year, place),
        _ => Ok(None),
    }
}

// The stay that a value is.
fn stay_in(alloc: Global, value: &Value) -> Result<Option<(Text, u32, Text)>, AllocError>
    ensures { IfOk result (λ found. MatchOption found
        ((stay : List ℕ × ℕ × List ℕ) → ¬ IsStayData (view value.now) stay)
        (IsStayData (view value.now))) }
{
    match items_in(value) {
        Some(items) => stay_of_items(alloc, items),
        None => Ok(None),
    }
}

// The stays that these values are.
fn stays_of(alloc: Global, items: &[Value]) -> Result<Option<Stays<Text>>, AllocError>
    ensures { IfOk result (λ found. MatchOption found
        ((stays : List (List ℕ × ℕ × List ℕ)) → ¬ AllZip IsStayData (map view items.now) stays)
        (AllZip IsStayData (map view items.now))) }
{
    let mut stays = Vec::new(alloc);
    'items: for item in items {
        let Some(stay) = stay_in(alloc, item)? else {
            return Ok(None);
        };
        stays.push(stay)?;
    }
    Ok(Some(Stays::from_vec(alloc, stays)))
}

// The array of stays that a value is.
fn array_of_stays(alloc: Global, value: &Value) -> Result<Option<Stays<Text>>, AllocError>
    ensures { IfOk result (λ found. MatchOption found
        ((stays : List (List ℕ × ℕ × List ℕ)) → ¬ IsArray (AllZip IsStayData) (view value.now) stays)
        (IsArray (AllZip IsStayData) (view value.now))) }
{
    match items_in(value) {
        Some(items) => stays_of(alloc, items),
        None => Ok(None),
    }
}

// The stays that a value is.
fn stays_in(alloc: Global, value: &Value) -> Result<Option<Cell<Text>>, AllocError>
    ensures { IfOk result (λ found. MatchOption found
        ((cell : AnyCell) → ¬ IsCellIn StaysColumn (view value.now) cell)
        (IsCellIn StaysColumn (view value.now))) }
{
    match array_of_stays(alloc, value)? {
        Some(stays) => Ok(Some(Cell::Stays { stays })),
        None => Ok(None),
    }
}

/// The cell of a column that a value is.
pub fn cell_in(
    alloc: Global,
    column: CellKind,
    value: &Value,
) -> Result<Option<Cell<Text>>, AllocError>
    ensures { IfOk result (λ found. MatchOption found
        ((cell : AnyCell) → ¬ IsCellIn column (view value.now) cell)
        (IsCellIn column (view value.now))) }
{
    match column {
        CellKind::Number => Ok(integer_in(value)),
        CellKind::Flag => Ok(flag_in(value)),
        CellKind::Words => words_in(alloc, value),
        CellKind::Texts => list_in(alloc, value),
        CellKind::Stays => stays_in(alloc, value),
    }
}
