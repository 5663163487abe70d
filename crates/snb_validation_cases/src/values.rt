//! Texts, numbers and arrays of JSON.

ghost use Rattle.std.specs.Prelude.{◌≡◌, ℕ, List, None, Some, IfOk, MatchOption, map, ◌≤◌};
ghost use Rattle.std.specs.List.{AllZip};
ghost use Rattle.serde_json.specs.Find.{as_array};
ghost use Rattle.serde_json.specs.View.{items_of, view};
ghost use Rattle.snb_validation_cases.specs.Values.{IsArray, IsNumberTo, IsString};

use serde_json::Value;
use snb_base::Text;
use snb_read_model::CellTexts;
use std::alloc::{AllocError, Global};

/// The number from 0 up to `most` that a value is.
pub fn number_in(value: &Value, most: u64) -> Option<u64>
    ensures { MatchOption result ((n : ℕ) → ¬ IsNumberTo most (view value.now) n) (IsNumberTo most (view value.now)) }
{
    match value.as_u64() {
        Some(n) => at_most(n, most),
        None => None,
    }
}

// The number, where it isn't above `most`.
fn at_most(n: u64, most: u64) -> Option<u64>
    ensures { MatchOption result (¬ (n ≤ most)) (λ m. (m ≡ n) × (n ≤ most)) }
{
    if n <= most { Some(n) } else { None }
}

/// The text that a value is.
pub fn text_in(alloc: Global, value: &Value) -> Result<Option<Text>, AllocError>
    ensures { IfOk result
        (λ found. MatchOption found ((text : List ℕ) → ¬ IsString (view value.now) text) (IsString (view value.now))) }
{
    match value.as_str() {
        Some(text) => Ok(Some(Text::from_str(alloc, text)?)),
        None => Ok(None),
    }
}

/// The values of an array.
pub fn items_in(value: &Value) -> Option<&[Value]>
    ensures { MatchOption result (as_array (view value.now) ≡ None)
        (λ items. as_array (view value.now) ≡ Some (items_of (map view items.now))) }
{
    match value.as_array() {
        Some(items) => Some(items.as_slice()),
        None => None,
    }
}

// The texts that these values are.
fn texts_of(alloc: Global, items: &[Value]) -> Result<Option<CellTexts<Text>>, AllocError>
    ensures { IfOk result (λ found. MatchOption found
        ((texts : List (List ℕ)) → ¬ AllZip IsString (map view items.now) texts)
        (AllZip IsString (map view items.now))) }
{
    let mut texts = Vec::new(alloc);
    'items: for item in items {
        let Some(text) = text_in(alloc, item)? else {
            return Ok(None);
        };
        texts.push(text)?;
    }
    Ok(Some(CellTexts::from_vec(alloc, texts)))
}

/// The array of texts that a value is.
pub fn texts_in(alloc: Global, value: &Value) -> Result<Option<CellTexts<Text>>, AllocError>
    ensures { IfOk result (λ found. MatchOption found
        ((texts : List (List ℕ)) → ¬ IsArray (AllZip IsString) (view value.now) texts)
        (IsArray (AllZip IsString) (view value.now))) }
{
    match items_in(value) {
        Some(items) => texts_of(alloc, items),
        None => Ok(None),
    }
}
