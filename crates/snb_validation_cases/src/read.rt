//! Cases read out of texts.

ghost use Rattle.std.specs.Prelude.{◌≡◌, List, None, Some, IfOk, IsUtf8, MatchOption};
ghost use Rattle.serde_json.specs.Read.{read};
ghost use Rattle.serde_json.specs.View.{view};
ghost use Rattle.snb_schema.specs.declared.op.Line.{Line as AnyLine};
ghost use Rattle.snb_schema.specs.declared.query.Query.{Query as AnyQuery};
ghost use Rattle.snb_schema.specs.declared.query.ReadKind.{ReadKind as AnyKind};
ghost use Rattle.snb_schema.specs.ReadKinds.{read_word};
ghost use Rattle.snb_schema.specs.UpdateLines.{IsLine};
ghost use Rattle.snb_read_model.specs.Cells.{ByteCell as AnyCell};
ghost use Rattle.snb_validation_cases.specs.declared.case.Case.{Case as AnyCase};
ghost use Rattle.snb_validation_cases.specs.Cases.{IsAsk, IsAskOf, IsCase, IsInsert, IsInsertLine, OnBadCase, SpellsCase, SpellsNone};
ghost use Rattle.snb_validation_cases.specs.Values.{IsString};

use crate::case::{Case, CaseFault};
use crate::members::{asked_parts, held_alone};
use crate::parameters::query_in;
use crate::replies::reply_in;
use crate::taken::taken_case;
use json::Scratch;
use serde_json::Value;
use snb_base::Text;
use snb_read_model::Reply;
use snb_schema::{Line, LineFault, Query, ReadKind};
use snb_streams::{one_bad_line, read_line};
use std::alloc::{AllocError, Global};

/// The value that `serde_json` reads from a text of UTF-8.
pub(crate) fn value_of(alloc: Global, text: &[u8]) -> Result<Option<Value>, AllocError>
    ensures { IfOk result (λ found. MatchOption found
        (IsUtf8 text.now → read text.now ≡ None)
        (λ value. IsUtf8 text.now × (read text.now ≡ Some (view value)))) }
{
    match Value::from_slice(alloc, text) {
        Ok(value) => Ok(Some(value)),
        Err(error) => {
            if error.is_memory() {
                return Err(AllocError);
            }
            Ok(None)
        }
    }
}

/// The insert of the line that a text is.
pub(crate) fn line_of(alloc: Global, text: &str) -> Result<Option<Line>, AllocError>
    ensures { IfOk result (λ found. MatchOption found
        ((line : AnyLine) → ¬ IsLine text.now line.t line.t_d line.op)
        (λ line. IsLine text.now line.t line.t_d line.op × (line.number ≡ 1))) }
{
    one_bad_line();
    match read_line(alloc, text.as_bytes()) {
        Ok(line) => Ok(Some(line)),
        Err(LineFault::Bad { column: _ }) => Ok(None),
        Err(LineFault::Memory) => Err(AllocError),
    }
}

// The insert of the line that a value is.
fn line_in(alloc: Global, value: &Value) -> Result<Option<Line>, AllocError>
    ensures { IfOk result (λ found. MatchOption found
        ((line : AnyLine) → ¬ IsInsertLine (view value.now) line)
        (IsInsertLine (view value.now))) }
{
    match value.as_str() {
        Some(text) => line_of(alloc, text),
        None => Ok(None),
    }
}

// The insert that a value is.
fn insert_in(alloc: Global, value: &Value) -> Result<Option<Line>, AllocError>
    ensures { IfOk result (λ found. MatchOption found
        ((line : AnyLine) → ¬ IsInsert (view value.now) line)
        (IsInsert (view value.now))) }
{
    match held_alone(value, "insert") {
        Some(held) => line_in(alloc, held),
        None => Ok(None),
    }
}

// The kind of read whose word a value is.
fn kind_in(value: &Value) -> Option<ReadKind>
    ensures { MatchOption result ((kind : AnyKind) → ¬ IsString (view value.now) (read_word kind))
        (λ kind. IsString (view value.now) (read_word kind)) }
{
    match value.as_str() {
        Some(word) => ReadKind::of_word(word),
        None => None,
    }
}

// The query and the reply that these three are.
fn ask_of(
    alloc: Global,
    params: &Value,
    word: &Value,
    held: &Value,
) -> Result<Option<(Query, Reply<Text>)>, AllocError>
    ensures { IfOk result (λ found. MatchOption found
        ((query : AnyQuery) (reply : List (List (List AnyCell))) → ¬ IsAskOf (view params.now) (view word.now)
        (view held.now) query reply)
        (λ ask. IsAskOf (view params.now) (view word.now) (view held.now) ask.0 ask.1)) }
{
    let Some(kind) = kind_in(word) else {
        return Ok(None);
    };
    let Some(query) = query_in(alloc, kind, params)? else {
        return Ok(None);
    };
    let Some(reply) = reply_in(alloc, &query, held)? else {
        return Ok(None);
    };
    Ok(Some((query, reply)))
}

// The query and the reply that a value is.
fn ask_in(alloc: Global, value: &Value) -> Result<Option<(Query, Reply<Text>)>, AllocError>
    ensures { IfOk result (λ found. MatchOption found
        ((query : AnyQuery) (reply : List (List (List AnyCell))) → ¬ IsAsk (view value.now) query reply)
        (λ ask. IsAsk (view value.now) ask.0 ask.1)) }
{
    match asked_parts(value) {
        Some((params, word, held)) => ask_of(alloc, params, word, held),
        None => Ok(None),
    }
}

// The case that a value is.
fn case_in(alloc: Global, value: &Value) -> Result<Option<Case>, AllocError>
    ensures { IfOk result (λ found. MatchOption found
        ((one : AnyCase) → ¬ IsCase (view value.now) one)
        (IsCase (view value.now))) }
{
    if let Some(line) = insert_in(alloc, value)? {
        return Ok(Some(Case::Insert { line }));
    }
    match ask_in(alloc, value)? {
        Some((query, reply)) => Ok(Some(Case::Ask { query, reply })),
        None => Ok(None),
    }
}

// The case that a text spells.
fn case_of(alloc: Global, text: &[u8]) -> Result<Option<Case>, AllocError>
    ensures { IfOk result (λ found. MatchOption found (SpellsNone text.now) (SpellsCase text.now)) }
{
    match value_of(alloc, text)? {
        Some(value) => case_in(alloc, &value),
        None => Ok(None),
    }
}

// The case that a text spells, off its tokens where it can be, and else through the tree of its values.
fn case_by(alloc: Global, scratch: &mut Scratch, text: &[u8]) -> Result<Option<Case>, AllocError>
    ensures { IfOk result (λ found. MatchOption found (SpellsNone text.now) (SpellsCase text.now)) }
{
    if let Some(case) = taken_case(alloc, scratch, text)? {
        return Ok(Some(case));
    }
    case_of(alloc, text)
}

/// What `read_case` says, with memory that is kept from text to text.
pub(crate) fn read_case_with(
    alloc: Global,
    scratch: &mut Scratch,
    text: &[u8],
) -> Result<Case, CaseFault>
    ensures ok { IfOk result (SpellsCase text.now) }
    ensures bad { OnBadCase result (SpellsNone text.now) }
{
    match case_by(alloc, scratch, text) {
        Ok(Some(case)) => Ok(case),
        Ok(None) => Err(CaseFault::Bad),
        Err(_) => Err(CaseFault::Memory),
    }
}

/// The case that a text spells, as one JSON object in any spelling. `Bad` says that it spells none.
///
/// The object of an insert has the key `insert` alone, which holds a line of an update stream of LDBC
/// SNB Interactive v1 without a line end. That of a read has the keys `params`, `read` and `reply`
/// alone: the array of its parameters, the word of its kind, and the reply, an array of answers, each
/// an array of rows, each an array of cells. The answers are the read's own, and one to each short read
/// that follows on its first row. Each value is of its column, and there may be any number of rows. What
/// counts is the value that `serde_json` reads: of equal keys the last, and no number that it reads
/// as a float.
pub fn read_case(alloc: Global, text: &[u8]) -> Result<Case, CaseFault>
    ensures ok { IfOk result (SpellsCase text.now) }
    ensures bad { OnBadCase result (SpellsNone text.now) }
{
    read_case_with(alloc, &mut Scratch::new(alloc), text)
}
