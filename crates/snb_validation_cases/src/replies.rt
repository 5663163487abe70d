//! The replies that JSON values are.

ghost use Rattle.std.specs.Prelude.{◌≡◌, ◌∷◌, List, IfOk, MatchOption, map, ⊤};
ghost use Rattle.std.specs.List.{AllZip};
ghost use Rattle.serde_json.specs.View.{view};
ghost use Rattle.snb_read_model.specs.Cells.{ByteCell as AnyCell};
ghost use Rattle.snb_read_model.specs.Replies.{tail_reads};
ghost use Rattle.snb_read_model.specs.Columns.{HaveColumns, columns_of as read_columns};
ghost use Rattle.snb_validation_cases.specs.Replies.{AreReply, IsAnswerTo, IsCellIn, IsReplyData, IsRow};
ghost use Rattle.snb_validation_cases.specs.Values.{AreAlong};

use crate::cells::cell_in;
use crate::values::items_in;
use serde_json::Value;
use snb_base::Text;
use snb_read_model::{
    Answer, AnswerRow, CellKind, Reply, layout_of_query, lend_answer, reply_with_tail, tail_of,
};
use snb_schema::Query;
use std::alloc::{AllocError, Global};

// The cells of these columns that values are.
fn cells_of(
    alloc: Global,
    columns: &[CellKind],
    items: &[Value],
) -> Result<Option<AnswerRow<Text>>, AllocError>
    ensures { IfOk result (λ found. MatchOption found
        ((cells : List AnyCell) → ¬ AreAlong IsCellIn columns.now (map view items.now) cells)
        (AreAlong IsCellIn columns.now (map view items.now))) }
{
    if columns.len() != items.len() {
        return Ok(None);
    }
    let mut cells = Vec::new(alloc);
    for i in 0..columns.len() {
        let Some(cell) = cell_in(alloc, columns[i], &items[i])? else {
            return Ok(None);
        };
        cells.push(cell)?;
    }
    Ok(Some(AnswerRow::from_vec(alloc, cells)))
}

// The row of a read that values are.
fn row_of(
    alloc: Global,
    query: &Query,
    items: &[Value],
) -> Result<Option<AnswerRow<Text>>, AllocError>
    ensures { IfOk result (λ found. MatchOption found
        ((row : List AnyCell) → ¬ AreAlong IsCellIn (read_columns query.now) (map view items.now) row)
        (AreAlong IsCellIn (read_columns query.now) (map view items.now))) }
{
    cells_of(alloc, layout_of_query(query).cells, items)
}

// The row of a read that a value is.
fn row_in(
    alloc: Global,
    query: &Query,
    value: &Value,
) -> Result<Option<AnswerRow<Text>>, AllocError>
    ensures { IfOk result (λ found. MatchOption found
        ((row : List AnyCell) → ¬ IsRow query.now (view value.now) row)
        (IsRow query.now (view value.now))) }
{
    match items_in(value) {
        Some(items) => row_of(alloc, query, items),
        None => Ok(None),
    }
}

// The rows of a read that values are.
fn rows_of(
    alloc: Global,
    query: &Query,
    items: &[Value],
) -> Result<Option<Answer<Text>>, AllocError>
    ensures { IfOk result (λ found. MatchOption found
        ((rows : List (List AnyCell)) → ¬ AllZip (IsRow query.now) (map view items.now) rows)
        (AllZip (IsRow query.now) (map view items.now))) }
{
    let mut rows = Vec::new(alloc);
    'items: for item in items {
        let Some(row) = row_in(alloc, query, item)? else {
            return Ok(None);
        };
        rows.push(row)?;
    }
    Ok(Some(Answer::from_vec(alloc, rows)))
}

// The answer to a query that a value is.
fn answer_in(
    alloc: Global,
    query: &Query,
    value: &Value,
) -> Result<Option<Answer<Text>>, AllocError>
    ensures columns { IfOk result (λ found. MatchOption found ⊤ (HaveColumns query.now)) }
    ensures found { IfOk result (λ found. MatchOption found
        ((answer : List (List AnyCell)) → ¬ IsAnswerTo query.now (view value.now) answer)
        (IsAnswerTo query.now (view value.now))) }
{
    match items_in(value) {
        Some(items) => rows_of(alloc, query, items),
        None => Ok(None),
    }
}

// The answers to these queries that values are.
fn answers_of(
    alloc: Global,
    queries: &[Query],
    items: &[Value],
) -> Result<Option<Vec<Answer<Text>>>, AllocError>
    ensures { IfOk result (λ found. MatchOption found
        ((answers : List (List (List AnyCell))) → ¬ AreAlong IsAnswerTo queries.now (map view items.now) answers)
        (λ answers. AreAlong IsAnswerTo queries.now (map view items.now) answers.items)) }
{
    if queries.len() != items.len() {
        return Ok(None);
    }
    let mut answers = Vec::new(alloc);
    for i in 0..queries.len() {
        let Some(answer) = answer_in(alloc, &queries[i], &items[i])? else {
            return Ok(None);
        };
        answers.push(answer)?;
    }
    Ok(Some(answers))
}

// The answers of the tail of this answer to a query that values are.
fn tail_in(
    alloc: Global,
    query: &Query,
    own: &Answer<Text>,
    items: &[Value],
) -> Result<Option<Vec<Answer<Text>>>, AllocError>
    requires { HaveColumns query.now own.now }
    ensures { IfOk result (λ found. MatchOption found
        ((answers : List (List (List AnyCell))) → ¬ AreAlong IsAnswerTo (tail_reads query.now own.now)
        (map view items.now) answers)
        (λ answers. AreAlong IsAnswerTo (tail_reads query.now own.now) (map view items.now) answers.items)) }
{
    let queries = tail_of(query, &lend_answer(own)?).queries(alloc)?;
    answers_of(alloc, queries.as_slice(), items)
}

// The reply to a query that values are.
fn reply_of(
    alloc: Global,
    query: &Query,
    items: &[Value],
) -> Result<Option<Reply<Text>>, AllocError>
    ensures { IfOk result (λ found. MatchOption found
        ((reply : List (List (List AnyCell))) → ¬ AreReply query.now (map view items.now) reply)
        (AreReply query.now (map view items.now))) }
{
    let [first, others @ ..] = items else {
        return Ok(None);
    };
    let Some(own) = answer_in(alloc, query, first)? else {
        return Ok(None);
    };
    let Some(tail) = tail_in(alloc, query, &own, others)? else {
        return Ok(None);
    };
    Ok(Some(reply_with_tail(alloc, own, tail)?))
}

/// The reply to a query that a value is.
pub fn reply_in(
    alloc: Global,
    query: &Query,
    value: &Value,
) -> Result<Option<Reply<Text>>, AllocError>
    ensures { IfOk result (λ found. MatchOption found
        ((reply : List (List (List AnyCell))) → ¬ IsReplyData query.now (view value.now) reply)
        (IsReplyData query.now (view value.now))) }
{
    match items_in(value) {
        Some(items) => reply_of(alloc, query, items),
        None => Ok(None),
    }
}
