//! The lines of a file of cases.

ghost use Rattle.std.specs.Prelude.{◌≡◌, ◌≤◌, ◌∷◌, ◌++◌, [], IfOk, IsUtf8, OnErr, OnOk, Some, codes, false};
ghost use Rattle.serde_json.specs.Data.{depth, member, no_members, object, string};
ghost use Rattle.serde_json.specs.Read.{max_depth, read};
ghost use Rattle.serde_json.specs.View.{view};
ghost use Rattle.serde_json.specs.Written.{compact_text, has_float};
ghost use Rattle.snb_schema.specs.ReadKinds.{read_kind_of, parameter_values, read_word};
ghost use Rattle.snb_schema.specs.StreamLines.{IsOfLine};
ghost use Rattle.snb_schema.specs.UpdateLines.{canonical_line};
ghost use Rattle.snb_validation.specs.Laws.{AreOfTypes};
ghost use Rattle.snb_validation.specs.ReplyData.{array_of, reply_data};
ghost use Rattle.snb_validation_cases.specs.Cases.{SpellsCase};
ghost use Rattle.snb_validation_cases.specs.declared.case.Case.TheVariants.{Ask};
ghost use Rattle.snb_validation_model.specs.CaseTexts.{case_data, case_line, case_text, parameter_data};
ghost use Rattle.snb_validation_model.specs.Expected.{insert_case};
ghost use Rattle.snb_validation_expect.specs.Writing.{IsJsonText};

use crate::params::params_value;
use serde_json::{Map, Value, put};
use snb_read_model::{CowText, Reply};
use snb_schema::{Line, Query};
use snb_streams::{own_line, write_line};
use snb_validation::reply_value;
use std::alloc::{AllocError, Global};
use std::str;

// Appends a value's compact text and a line end. Want of memory leaves the bytes as they were.
fn put_value(alloc: Global, value: &Value, to: &mut Vec<u8>) -> Result<(), AllocError>
    requires plain { has_float (view value.now) ≡ false }
    requires low { depth (view value.now) ≤ max_depth }
    ensures ok { OnOk result (to.new.items ≡ to.old.items ++ compact_text (view value.now) ++ 10 ∷ []) }
    ensures text { OnOk result (IsJsonText (compact_text (view value.now)) (view value.now)) }
    ensures err { OnErr result (to.new.items ≡ to.old.items) }
{
    let mut text = value.to_vec(alloc)?;
    text.push(b'\n')?;
    to.extend_from_slice(&text)
}

// The value of an insert's line.
fn insert_value(alloc: Global, line: &str) -> Result<Value, AllocError>
    ensures { IfOk result (λ v. view v ≡ object (member (codes "insert") (string line.now) no_members)) }
{
    let mut members = Map::new(alloc);
    let line = Value::try_from_str(alloc, line)?;
    put(&mut members, alloc, "insert", line)?;
    Ok(Value::Object(members))
}

// The value of a read and its reply.
fn ask_value(alloc: Global, query: &Query, reply: &Reply<CowText<'_>>) -> Result<Value, AllocError>
    ensures value { IfOk result (λ v. view v ≡ case_data (Ask query.now reply.now)) }
    ensures types { OnOk result (AreOfTypes reply.now) }
{
    let mut members = Map::new(alloc);
    let params = params_value(alloc, query)?;
    put(&mut members, alloc, "params", params)?;
    let word = Value::try_from_str(alloc, query.kind().word())?;
    put(&mut members, alloc, "read", word)?;
    let reply = reply_value(alloc, reply)?;
    put(&mut members, alloc, "reply", reply)?;
    Ok(Value::Object(members))
}

/// Appends the line of an insert's case, which is read as that case. Want of memory leaves the bytes as
/// they were. The condition: some line of an update stream is the insert's.
pub fn put_insert(alloc: Global, line: &Line, to: &mut Vec<u8>) -> Result<(), AllocError>
    requires { IsOfLine line.now }
    ensures ok { OnOk result (to.new.items ≡ to.old.items ++ case_line (insert_case line.now)) }
    ensures read_back { OnOk result (SpellsCase (case_text (insert_case line.now)) (insert_case line.now)) }
    ensures err { OnErr result (to.new.items ≡ to.old.items) }
{
    own_line();
    let mut text = Vec::new(alloc);
    write_line(line, &mut text)?;
    // What has a line is written as a line, which is UTF-8.
    let Ok(text) = str::from_utf8(&text) else {
        unreachable!()
    };
    let value = insert_value(alloc, text)?;
    put_value(alloc, &value, to)
}

/// Appends the line of a read's case with this reply. `serde_json` reads from the line's text the case's
/// value. Want of memory leaves the bytes as they were.
pub fn put_ask(
    alloc: Global,
    query: &Query,
    reply: &Reply<CowText<'_>>,
    to: &mut Vec<u8>,
) -> Result<(), AllocError>
    ensures ok { OnOk result (to.new.items ≡ to.old.items ++ case_line (Ask query.now reply.now)) }
    ensures text { OnOk result
        (IsJsonText (case_text (Ask query.now reply.now)) (case_data (Ask query.now reply.now))) }
    ensures types { OnOk result (AreOfTypes reply.now) }
    ensures err { OnErr result (to.new.items ≡ to.old.items) }
{
    let value = ask_value(alloc, query, reply)?;
    put_value(alloc, &value, to)
}
