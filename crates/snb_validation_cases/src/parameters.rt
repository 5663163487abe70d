//! The queries that JSON values ask.

ghost use Rattle.std.specs.Prelude.{◌≡◌, ◌+◌, ◌∷◌, [], IfOk, MatchOption, OnOk, map};
ghost use Rattle.serde_json.specs.View.{view};
ghost use Rattle.snb_schema.specs.declared.query.Query.{Query as AnyQuery};
ghost use Rattle.snb_schema.specs.Faults.{OnBadColumn};
ghost use Rattle.snb_validation_cases.specs.Parameters.{AreOfKind};
ghost use Rattle.snb_validation_cases.specs.Values.{IsArray};

use crate::values::{items_in, number_in, text_in};
use serde_json::Value as Json;
use snb_base::Text;
use snb_input_fields::{Fields, read_query};
use snb_schema::{LineFault, MAX_TIME, Query, ReadKind};
use std::alloc::{AllocError, Global};
use std::marker::Model;

// Reads the values of an array as parameters, one after another. A contract sees the values that are
// left, and how many were read.
#[derive(Drop)]
struct JsonFields<'a> {
    alloc: Global,
    left: &'a [Json],
    read: u32,
}

impl<'a> Model for JsonFields<'a> {
    ghost use Rattle.std.specs.Prelude.{◌+◌, ◌<◌, length};
    ghost use Rattle.std.specs.Coded.{codes};
    ghost use Rattle.serde_json.specs.contracts.value.Value as json;
    ghost use Rattle.snb_input_fields.specs.declared.wide.TheConstants.{COLUMNS_END};
    ghost use Rattle.snb_validation_cases.specs.Parameters.{JsonReading};

    ghost Value = { JsonReading };

    ghost coded = { Prim.hlevel (codes, json.the_row.coded) };

    ghost view = { λ r. record { left = r.left.now; read = r.read } };

    ghost invariant = { λ r. r.read + length r.left.now < COLUMNS_END };
}

impl<'a> JsonFields<'a> {
    // Takes the next value. The error is `Bad`, where none is left.
    fn next(&mut self) -> Result<&'a Json, LineFault>
        ensures next { IfOk result (λ value. self.old.left ≡ value.now ∷ self.new.left) }
        ensures read { OnOk result (self.new.read ≡ self.old.read + 1) }
        ensures none { OnBadColumn result (λ number. (self.old.left ≡ []) × (number ≡ self.old.read + 1)) }
    {
        let [first, left @ ..] = self.left else {
            return Err(LineFault::Bad {
                column: self.read + 1,
            });
        };
        self.left = left;
        self.read += 1;
        Ok(first)
    }
}

impl<'a> Fields for JsonFields<'a> {
    ghost use Rattle.snb_validation_cases.specs.Parameters.{json_meaning};

    ghost meaning = { json_meaning };

    fn number(&mut self, most: u64) -> Result<u64, LineFault> {
        match number_in(self.next()?, most) {
            Some(n) => Ok(n),
            None => Err(LineFault::Bad { column: self.read }),
        }
    }

    fn small(&mut self, most: u32) -> Result<u32, LineFault> {
        match number_in(self.next()?, u64::from(most)) {
            Some(n) => Ok(n as u32),
            None => Err(LineFault::Bad { column: self.read }),
        }
    }

    fn date(&mut self) -> Result<u64, LineFault> {
        self.number(MAX_TIME)
    }

    fn text(&mut self) -> Result<Text, LineFault> {
        let value = self.next()?;
        match text_in(self.alloc, value)? {
            Some(text) => Ok(text),
            None => Err(LineFault::Bad { column: self.read }),
        }
    }
}

/// The query of this kind that has these parameters.
pub fn query_with(
    alloc: Global,
    kind: ReadKind,
    items: &[Json],
) -> Result<Option<Query>, AllocError>
    ensures { IfOk result (λ found. MatchOption found
        ((query : AnyQuery) → ¬ AreOfKind kind (map view items.now) query)
        (AreOfKind kind (map view items.now))) }
{
    if kind.columns().len() != items.len() {
        return Ok(None);
    }
    let mut fields = JsonFields {
        alloc,
        left: items,
        read: 0,
    };
    match read_query(kind, &mut fields) {
        Ok(query) => Ok(Some(query)),
        Err(LineFault::Bad { column: _ }) => Ok(None),
        Err(LineFault::Memory) => Err(AllocError),
    }
}

/// The query of this kind whose parameters a value is.
pub fn query_in(alloc: Global, kind: ReadKind, value: &Json) -> Result<Option<Query>, AllocError>
    ensures { IfOk result (λ found. MatchOption found
        ((query : AnyQuery) → ¬ IsArray (AreOfKind kind) (view value.now) query)
        (IsArray (AreOfKind kind) (view value.now))) }
{
    match items_in(value) {
        Some(items) => query_with(alloc, kind, items),
        None => Ok(None),
    }
}
