//! Cases in the order of keys in which they are written, taken off the tokens of a text. Where there is
//! none, nothing is said of the text.

ghost use Rattle.std.specs.Prelude.{◌≡◌, ◌∷◌, ◌<◌, length, IfOk, IsTrue, MatchOption, Some, codes, map, ⊤};
ghost use Rattle.std.specs.List.{AllZip};
ghost use Rattle.json.specs.Token.{begin_array, end_object, key, string};
ghost use Rattle.serde_json.specs.Data.{unsigned};
ghost use Rattle.serde_json.specs.Find.{as_array};
ghost use Rattle.serde_json.specs.Read.{number_of};
ghost use Rattle.serde_json.specs.View.{items_of, view};
ghost use Rattle.snb_schema.specs.ReadKinds.{read_word};
ghost use Rattle.snb_read_model.specs.Columns.{HaveColumns};
ghost use Rattle.snb_read_model.specs.Replies.{tail_reads};
ghost use Rattle.snb_schema.specs.declared.query.CellKind.TheVariants.{Flag, Number, Texts as TextsColumn};
ghost use Rattle.snb_validation_cases.specs.Cases.{IsCase, IsInsertLine, SpellsCase};
ghost use Rattle.snb_validation_cases.specs.Replies.{IsAnswerTo, IsCellIn, IsReplyData, IsStayData};
ghost use Rattle.snb_validation_cases.specs.Takes.{Takes, TakesAsk, TakesEach, TakesMembers};
ghost use Rattle.snb_validation_cases.specs.Values.{AreAlong, IsArray, IsNumberTo, IsString};

use crate::case::Case;
use crate::parameters::query_with;
use crate::read::line_of;
use fast_float::Numeral;
use json::{Reader, Scratch, Token};
use serde_json::{Number as JsonNumber, Value as Json};
use snb_base::Text;
use snb_read_model::{
    Answer, AnswerRow, Cell, CellKind, CellTexts, Reply, Stays, layout_of_query, lend_answer,
    reply_with_tail, tail_of,
};
use snb_schema::{Line, MAX_YEAR, Query, ReadKind};
use std::alloc::{AllocError, Global};

// The text that comes next.
fn text_at(alloc: Global, reader: &mut Reader<'_>) -> Result<Option<Text>, AllocError>
    ensures found { IfOk result (λ found. MatchOption found ⊤ (λ text. Takes 0 (λ d. IsString d text) reader.old reader.new)) }
    ensures shorter { IfOk result (λ found. MatchOption found ⊤ (λ text. length reader.new < length reader.old)) }
{
    let Some(Token::String(text)) = reader.next() else {
        return Ok(None);
    };
    Ok(Some(Text::from_str(alloc, text)?))
}

// The number that a text writes in digits alone.
fn natural_of(text: &str) -> Option<u64>
    ensures { MatchOption result ⊤ (λ n. number_of text.now ≡ Some (unsigned n)) }
{
    let bytes = text.as_bytes();
    if bytes.is_empty() || bytes[0] == b'-' {
        return None;
    }
    Numeral::scan(bytes).to_u64()
}

// The number from 0 up to `most` that comes next.
fn natural_at(reader: &mut Reader<'_>, most: u64) -> Option<u64>
    ensures { MatchOption result ⊤ (λ n. Takes 0 (λ d. IsNumberTo most d n) reader.old reader.new) }
{
    let Some(Token::Number(text)) = reader.next() else {
        return None;
    };
    let n = natural_of(text)?;
    if n <= most { Some(n) } else { None }
}

// The number from 0 that comes next.
fn integer_at(reader: &mut Reader<'_>) -> Option<Cell<Text>>
    ensures { MatchOption result ⊤ (λ cell. Takes 1 (λ d. IsCellIn Number d cell) reader.old reader.new) }
{
    let n = natural_at(reader, i64::MAX as u64)?;
    Some(Cell::Number { value: n as i64 })
}

// The truth value that comes next.
fn flag_at(reader: &mut Reader<'_>) -> Option<Cell<Text>>
    ensures { MatchOption result ⊤ (λ cell. Takes 1 (λ d. IsCellIn Flag d cell) reader.old reader.new) }
{
    let Some(Token::Bool(value)) = reader.next() else {
        return None;
    };
    Some(Cell::Flag { value })
}

// Whether an array opens next.
fn opens(reader: &mut Reader<'_>) -> bool
    ensures { IsTrue result → (reader.old ≡ begin_array ∷ reader.new) }
{
    let Some(Token::BeginArray) = reader.next() else {
        return false;
    };
    true
}

// The texts that come next.
fn texts_at(alloc: Global, reader: &mut Reader<'_>) -> Result<Option<CellTexts<Text>>, AllocError>
    ensures { IfOk result (λ found. MatchOption found ⊤
        (λ texts. Takes 1 (λ d. IsArray (AllZip IsString) d texts) reader.old reader.new)) }
{
    if !opens(reader) {
        return Ok(None);
    }
    let mut texts = Vec::new(alloc);
    'items: while !reader.take_end_array() {
        let Some(text) = text_at(alloc, reader)? else {
            return Ok(None);
        };
        texts.push(text)?;
    }
    Ok(Some(CellTexts::from_vec(alloc, texts)))
}

// The stay that comes next.
fn stay_at(alloc: Global, reader: &mut Reader<'_>) -> Result<Option<(Text, u32, Text)>, AllocError>
    ensures found { IfOk result (λ found. MatchOption found ⊤
        (λ stay. Takes 1 (λ d. IsStayData d stay) reader.old reader.new)) }
    ensures shorter { IfOk result (λ found. MatchOption found ⊤ (λ stay. length reader.new < length reader.old)) }
{
    if !opens(reader) {
        return Ok(None);
    }
    let Some(name) = text_at(alloc, reader)? else {
        return Ok(None);
    };
    let Some(year) = natural_at(reader, u64::from(MAX_YEAR)) else {
        return Ok(None);
    };
    let Some(place) = text_at(alloc, reader)? else {
        return Ok(None);
    };
    if !reader.take_end_array() {
        return Ok(None);
    }
    Ok(Some((name, year as u32, place)))
}

// The stays that come next.
fn stays_at(alloc: Global, reader: &mut Reader<'_>) -> Result<Option<Stays<Text>>, AllocError>
    ensures { IfOk result (λ found. MatchOption found ⊤
        (λ stays. Takes 2 (λ d. IsArray (AllZip IsStayData) d stays) reader.old reader.new)) }
{
    if !opens(reader) {
        return Ok(None);
    }
    let mut stays = Vec::new(alloc);
    'items: while !reader.take_end_array() {
        let Some(stay) = stay_at(alloc, reader)? else {
            return Ok(None);
        };
        stays.push(stay)?;
    }
    Ok(Some(Stays::from_vec(alloc, stays)))
}

// The cell of a column that comes next.
fn cell_at(
    alloc: Global,
    column: CellKind,
    reader: &mut Reader<'_>,
) -> Result<Option<Cell<Text>>, AllocError>
    ensures { IfOk result (λ found. MatchOption found ⊤ (λ cell. Takes 2 (λ d. IsCellIn column d cell) reader.old reader.new)) }
{
    match column {
        CellKind::Number => Ok(integer_at(reader)),
        CellKind::Flag => Ok(flag_at(reader)),
        CellKind::Words => match text_at(alloc, reader)? {
            Some(text) => Ok(Some(Cell::Words { text })),
            None => Ok(None),
        },
        CellKind::Texts => match texts_at(alloc, reader)? {
            Some(texts) => Ok(Some(Cell::List { texts })),
            None => Ok(None),
        },
        CellKind::Stays => match stays_at(alloc, reader)? {
            Some(stays) => Ok(Some(Cell::Stays { stays })),
            None => Ok(None),
        },
    }
}

// The row of these columns that comes next.
fn row_at(
    alloc: Global,
    columns: &[CellKind],
    reader: &mut Reader<'_>,
) -> Result<Option<AnswerRow<Text>>, AllocError>
    ensures found { IfOk result (λ found. MatchOption found ⊤
        (λ row. Takes 3 (λ d. IsArray (AreAlong IsCellIn columns.now) d row) reader.old reader.new)) }
    ensures shorter { IfOk result (λ found. MatchOption found ⊤ (λ row. length reader.new < length reader.old)) }
{
    if !opens(reader) {
        return Ok(None);
    }
    let mut cells = Vec::new(alloc);
    for i in 0..columns.len() {
        let Some(cell) = cell_at(alloc, columns[i], reader)? else {
            return Ok(None);
        };
        cells.push(cell)?;
    }
    if !reader.take_end_array() {
        return Ok(None);
    }
    Ok(Some(AnswerRow::from_vec(alloc, cells)))
}

// The answer to a query that comes next.
fn answer_at(
    alloc: Global,
    query: &Query,
    reader: &mut Reader<'_>,
) -> Result<Option<Answer<Text>>, AllocError>
    ensures columns { IfOk result (λ found. MatchOption found ⊤ (HaveColumns query.now)) }
    ensures found { IfOk result (λ found. MatchOption found ⊤
        (λ answer. Takes 4 (λ d. IsAnswerTo query.now d answer) reader.old reader.new)) }
{
    let columns = layout_of_query(query).cells;
    if !opens(reader) {
        return Ok(None);
    }
    let mut rows = Vec::new(alloc);
    'items: while !reader.take_end_array() {
        let Some(row) = row_at(alloc, columns, reader)? else {
            return Ok(None);
        };
        rows.push(row)?;
    }
    Ok(Some(Answer::from_vec(alloc, rows)))
}

// The answers to these queries that come next, with no bracket.
fn answers_at(
    alloc: Global,
    queries: &[Query],
    reader: &mut Reader<'_>,
) -> Result<Option<Vec<Answer<Text>>>, AllocError>
    ensures { IfOk result (λ found. MatchOption found ⊤
        (λ answers. TakesEach 4 (λ ds. AreAlong IsAnswerTo queries.now ds answers.items) reader.old reader.new)) }
{
    let mut answers = Vec::new(alloc);
    for i in 0..queries.len() {
        let Some(answer) = answer_at(alloc, &queries[i], reader)? else {
            return Ok(None);
        };
        answers.push(answer)?;
    }
    Ok(Some(answers))
}

// The answers of the tail of this answer to a query that come next, with no bracket.
fn tail_at(
    alloc: Global,
    query: &Query,
    own: &Answer<Text>,
    reader: &mut Reader<'_>,
) -> Result<Option<Vec<Answer<Text>>>, AllocError>
    requires { HaveColumns query.now own.now }
    ensures { IfOk result (λ found. MatchOption found ⊤
        (λ answers. TakesEach 4 (λ ds. AreAlong IsAnswerTo (tail_reads query.now own.now) ds answers.items)
        reader.old reader.new)) }
{
    let queries = tail_of(query, &lend_answer(own)?).queries(alloc)?;
    answers_at(alloc, queries.as_slice(), reader)
}

// The reply to a query that comes next.
fn reply_at(
    alloc: Global,
    query: &Query,
    reader: &mut Reader<'_>,
) -> Result<Option<Reply<Text>>, AllocError>
    ensures { IfOk result (λ found. MatchOption found ⊤
        (λ reply. Takes 5 (λ d. IsReplyData query.now d reply) reader.old reader.new)) }
{
    if !opens(reader) {
        return Ok(None);
    }
    let Some(own) = answer_at(alloc, query, reader)? else {
        return Ok(None);
    };
    let Some(tail) = tail_at(alloc, query, &own, reader)? else {
        return Ok(None);
    };
    if !reader.take_end_array() {
        return Ok(None);
    }
    Ok(Some(reply_with_tail(alloc, own, tail)?))
}

// The parameter that comes next.
fn parameter_at(alloc: Global, reader: &mut Reader<'_>) -> Result<Option<Json>, AllocError>
    ensures found { IfOk result (λ found. MatchOption found ⊤
        (λ value. Takes 0 (λ d. d ≡ view value) reader.old reader.new)) }
    ensures shorter { IfOk result (λ found. MatchOption found ⊤ (λ value. length reader.new < length reader.old)) }
{
    match reader.next() {
        Some(Token::String(text)) => Ok(Some(Json::try_from_str(alloc, text)?)),
        Some(Token::Number(text)) => match natural_of(text) {
            Some(n) => Ok(Some(Json::Number(JsonNumber::from(n)))),
            None => Ok(None),
        },
        _ => Ok(None),
    }
}

// The parameters that come next.
fn parameters_at(alloc: Global, reader: &mut Reader<'_>) -> Result<Option<Vec<Json>>, AllocError>
    ensures { IfOk result (λ found. MatchOption found ⊤
        (λ values. Takes 1 (λ d. as_array d ≡ Some (items_of (map view values.items))) reader.old reader.new)) }
{
    if !opens(reader) {
        return Ok(None);
    }
    let mut values = Vec::new(alloc);
    'items: while !reader.take_end_array() {
        let Some(value) = parameter_at(alloc, reader)? else {
            return Ok(None);
        };
        values.push(value)?;
    }
    Ok(Some(values))
}

// Whether this key comes next.
fn has_key(reader: &mut Reader<'_>, name: &str) -> bool
    ensures { IsTrue result → (reader.old ≡ key name.now ∷ reader.new) }
{
    let Some(Token::Key(key)) = reader.next() else {
        return false;
    };
    key == name
}

// The kind of read whose key and word come next.
fn kind_at(reader: &mut Reader<'_>) -> Option<ReadKind>
    ensures { MatchOption result ⊤ (λ kind. reader.old ≡ key (codes "read") ∷ string (read_word kind) ∷ reader.new) }
{
    if !has_key(reader, "read") {
        return None;
    }
    let Some(Token::String(word)) = reader.next() else {
        return None;
    };
    ReadKind::of_word(word)
}

// The query and the reply to it that come next, after the key of the parameters.
fn ask_at(
    alloc: Global,
    reader: &mut Reader<'_>,
) -> Result<Option<(Query, Reply<Text>)>, AllocError>
    ensures { IfOk result (λ found. MatchOption found ⊤ (λ ask. TakesAsk ask.0 ask.1 reader.old reader.new)) }
{
    let Some(params) = parameters_at(alloc, reader)? else {
        return Ok(None);
    };
    let Some(kind) = kind_at(reader) else {
        return Ok(None);
    };
    let Some(query) = query_with(alloc, kind, params.as_slice())? else {
        return Ok(None);
    };
    if !has_key(reader, "reply") {
        return Ok(None);
    }
    let Some(reply) = reply_at(alloc, &query, reader)? else {
        return Ok(None);
    };
    Ok(Some((query, reply)))
}

// The insert whose line comes next, after its key.
fn insert_at(alloc: Global, reader: &mut Reader<'_>) -> Result<Option<Line>, AllocError>
    ensures { IfOk result (λ found. MatchOption found ⊤
        (λ line. Takes 0 (λ d. IsInsertLine d line) reader.old reader.new)) }
{
    let Some(Token::String(text)) = reader.next() else {
        return Ok(None);
    };
    line_of(alloc, text)
}

// Whether an object closes next.
fn closes(reader: &mut Reader<'_>) -> bool
    ensures { IsTrue result → (reader.old ≡ end_object ∷ reader.new) }
{
    let Some(Token::EndObject) = reader.next() else {
        return false;
    };
    true
}

// The case whose members come next, as far as the brace that closes them.
fn members_at(alloc: Global, reader: &mut Reader<'_>) -> Result<Option<Case>, AllocError>
    ensures { IfOk result (λ found. MatchOption found ⊤ (λ case. TakesMembers case reader.old reader.new)) }
{
    let Some(Token::Key(key)) = reader.next() else {
        return Ok(None);
    };
    if key == "insert" {
        return match insert_at(alloc, reader)? {
            Some(line) => Ok(Some(Case::Insert { line })),
            None => Ok(None),
        };
    }
    if key != "params" {
        return Ok(None);
    }
    match ask_at(alloc, reader)? {
        Some((query, reply)) => Ok(Some(Case::Ask { query, reply })),
        None => Ok(None),
    }
}

// The case that comes next.
fn case_at(alloc: Global, reader: &mut Reader<'_>) -> Result<Option<Case>, AllocError>
    ensures { IfOk result (λ found. MatchOption found ⊤ (λ case. Takes 6 (λ d. IsCase d case) reader.old reader.new)) }
{
    let Some(Token::BeginObject) = reader.next() else {
        return Ok(None);
    };
    let Some(case) = members_at(alloc, reader)? else {
        return Ok(None);
    };
    if !closes(reader) {
        return Ok(None);
    }
    Ok(Some(case))
}

/// The case that a text spells, where its keys stand in the order in which they are written, and it has
/// no number below 0. `None` says nothing.
pub fn taken_case(
    alloc: Global,
    scratch: &mut Scratch,
    text: &[u8],
) -> Result<Option<Case>, AllocError>
    ensures { IfOk result (λ found. MatchOption found ⊤ (SpellsCase text.now)) }
{
    let Ok(text) = simdutf8::basic::from_utf8(text) else {
        return Ok(None);
    };
    let mut reader = Reader::new(text, scratch)?;
    let Some(case) = case_at(alloc, &mut reader)? else {
        return Ok(None);
    };
    if reader.next().is_some() {
        return Ok(None);
    }
    Ok(Some(case))
}
