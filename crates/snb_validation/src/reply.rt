//! The text of a reply as JSON, and its value in `serde_json`.

ghost use Rattle.std.specs.Prelude.{◌≡◌, ◌<◌, ◌^◌, ◌++◌, Some, OnOk, OnErr, IfOk, map};
ghost use Rattle.std.specs.List.{AllByRecursion};
ghost use Rattle.serde_json.specs.Data.{string};
ghost use Rattle.serde_json.specs.Read.{read};
ghost use Rattle.serde_json.specs.View.{view};
ghost use Rattle.serde_json.specs.Written.{compact_text};
ghost use Rattle.snb_validation.specs.Laws.{AreOfTypes, IsOfType};
ghost use Rattle.snb_validation.specs.ReplyData.{array_of, cell_data, reply_data, stay_data};

use crate::written::write_reply;
use json::Writer;
use serde_json::Value;
use snb_read_model::{Answer, AnswerRow, Cell, CowText, Reply};
use std::alloc::{AllocError, Global};
use std::mem;

/// Appends the compact JSON text of a reply: an array of answers, each an array of rows, each an array
/// of cells. A number, a flag or a text is a number, a truth value or a string; a list of texts is an
/// array of strings, and a stay an array of the name, the year and the name of the place. `serde_json`
/// reads from that text the array that was written. Want of memory leaves the bytes as they were.
pub fn reply_text(reply: &Reply<CowText<'_>>, to: &mut Vec<u8>) -> Result<(), AllocError>
    ensures ok { OnOk result (to.new.items ≡ to.old.items ++ compact_text (reply_data reply.now)) }
    ensures back { OnOk result
        (read (compact_text (reply_data reply.now)) ≡ Some (reply_data reply.now)) }
    ensures err { OnErr result (to.new.items ≡ to.old.items) }
{
    // The writer has the bytes themselves meanwhile, so that no text is copied on its way to them.
    let alloc = *to.allocator();
    let bytes = mem::replace(to, Vec::new(alloc));
    let length = bytes.len();
    let mut writer = Writer::new(bytes);
    let written = write_reply(&mut writer, reply);
    *to = writer.into_inner();
    if written.is_err() {
        to.truncate(length);
    }
    written
}

/// The value of a reply, whose numbers are of 64 bits with a sign, and the years of its stays of 32.
pub fn reply_value(alloc: Global, reply: &Reply<CowText<'_>>) -> Result<Value, AllocError>
    ensures value { IfOk result (λ v. view v ≡ reply_data reply.now) }
    ensures types { OnOk result (AreOfTypes reply.now) }
{
    let mut values = Vec::new(alloc);
    'answers: for answer in reply.as_slice() {
        values.push(answer_value(alloc, answer)?)?;
    }
    Ok(Value::Array(values))
}

fn answer_value(alloc: Global, answer: &Answer<CowText<'_>>) -> Result<Value, AllocError>
    ensures value { IfOk result (λ v. view v ≡ array_of (array_of cell_data) answer.now) }
    ensures types { OnOk result (AllByRecursion (AllByRecursion IsOfType) answer.now) }
{
    let mut values = Vec::new(alloc);
    'rows: for row in answer.as_slice() {
        values.push(row_value(alloc, row)?)?;
    }
    Ok(Value::Array(values))
}

fn row_value(alloc: Global, row: &AnswerRow<CowText<'_>>) -> Result<Value, AllocError>
    ensures value { IfOk result (λ v. view v ≡ array_of cell_data row.now) }
    ensures types { OnOk result (AllByRecursion IsOfType row.now) }
{
    let mut values = Vec::new(alloc);
    'cells: for cell in row.as_slice() {
        values.push(cell_value(alloc, cell)?)?;
    }
    Ok(Value::Array(values))
}

fn cell_value(alloc: Global, cell: &Cell<CowText<'_>>) -> Result<Value, AllocError>
    ensures value { IfOk result (λ v. view v ≡ cell_data cell.now) }
    ensures types { OnOk result (IsOfType cell.now) }
{
    match cell {
        Cell::Number { value } => Ok(Value::from(*value)),
        Cell::Flag { value } => Ok(Value::from(*value)),
        Cell::Words { text } => Value::try_from_str(alloc, text.as_str()),
        Cell::List { texts } => Ok(Value::Array(texts_value(alloc, texts.as_slice())?)),
        Cell::Stays { stays } => Ok(Value::Array(stays_value(alloc, stays.as_slice())?)),
    }
}

fn texts_value(alloc: Global, texts: &[CowText<'_>]) -> Result<Vec<Value>, AllocError>
    ensures { IfOk result (λ v. map view v.items ≡ map string texts.now) }
{
    let mut values = Vec::new(alloc);
    'texts: for text in texts {
        values.push(Value::try_from_str(alloc, text.as_str())?)?;
    }
    Ok(values)
}

fn stays_value(
    alloc: Global,
    stays: &[(CowText<'_>, u32, CowText<'_>)],
) -> Result<Vec<Value>, AllocError>
    ensures values { IfOk result (λ v. map view v.items ≡ map stay_data stays.now) }
    ensures types { OnOk result (AllByRecursion (λ s. s.1 < 2 ^ 32) stays.now) }
{
    let mut values = Vec::new(alloc);
    'stays: for stay in stays {
        values.push(stay_value(alloc, stay)?)?;
    }
    Ok(values)
}

fn stay_value(alloc: Global, stay: &(CowText<'_>, u32, CowText<'_>)) -> Result<Value, AllocError>
    ensures value { IfOk result (λ v. view v ≡ stay_data stay.now) }
    ensures types { OnOk result (stay.now.1 < 2 ^ 32) }
{
    let name = Value::try_from_str(alloc, stay.0.as_str())?;
    let year = Value::from(stay.1);
    let place = Value::try_from_str(alloc, stay.2.as_str())?;
    Ok(Value::Array(vec![in alloc; name, year, place]?))
}
