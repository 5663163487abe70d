//! The tail of a reply: whom and which message the short reads that follow ask about.

ghost use Rattle.std.specs.Prelude.{◌≡◌, IfOk};
ghost use Rattle.snb_read_model.specs.Replies.{id_at, id_of, tail_reads};
ghost use Rattle.snb_read_model.specs.Columns.{HaveColumns};
ghost use Rattle.std.specs.List.{AllByRecursion, fold};
ghost use Rattle.snb_read_model.specs.Tails.{IsNumberAt, IsTargetOf, no_tail, queries_of, with_target};

use crate::answer::{Answer, AnswerRow};
use crate::cell::Cell;
use crate::cow_text::CowText;
use snb_schema::{Query, TargetColumn, layout_of_query};
use std::alloc::{AllocError, Global};

/// Whom and which message the short reads ask about that follow an answer.
#[derive(Clone, Copy)]
pub struct Tail {
    /// The person of IS1, IS2 and IS3, where they follow.
    pub person: Option<u64>,
    /// The message of IS4 to IS7, where they follow.
    pub message: Option<u64>,
}

const NO_TAIL: Tail = Tail {
    person: None,
    message: None,
};

impl Tail {
    /// The short reads of the tail, in the order in which their answers follow.
    pub fn queries(self, alloc: Global) -> Result<Vec<Query>, AllocError>
        ensures { IfOk result (λ queries. queries.items ≡ queries_of self) }
    {
        let mut queries = Vec::new(alloc);
        if let Some(person) = self.person {
            queries.push(Query::Is1 { person })?;
            queries.push(Query::Is2 { person })?;
            queries.push(Query::Is3 { person })?;
        }
        if let Some(message) = self.message {
            queries.push(Query::Is4 { message })?;
            queries.push(Query::Is5 { message })?;
            queries.push(Query::Is6 { message })?;
            queries.push(Query::Is7 { message })?;
        }
        Ok(queries)
    }
}

/// The id that a number is, 0 where it is below zero.
pub fn id_of(value: i64) -> u64
    ensures { result ≡ id_of value }
{
    if value < 0 { 0 } else { value as u64 }
}

// The id in a column of a row, counted from 1. A number below zero is no id, and stands for 0.
fn id_at(row: &AnswerRow<CowText<'_>>, at: usize) -> u64
    requires { IsNumberAt row.now at }
    ensures { result ≡ id_at at row.now }
{
    match &row.as_slice()[at - 1] {
        Cell::Number { value } => id_of(*value),
        _ => unreachable!(),
    }
}

// The tail with the id of a target in a row.
fn with_target(tail: Tail, row: &AnswerRow<CowText<'_>>, column: TargetColumn) -> Tail
    requires { IsTargetOf row.now column }
    ensures { result ≡ with_target row.now tail column }
{
    match column {
        TargetColumn::PersonAt { at } => Tail {
            person: Some(id_at(row, at)),
            message: tail.message,
        },
        TargetColumn::MessageAt { at } => Tail {
            person: tail.person,
            message: Some(id_at(row, at)),
        },
    }
}

// The tail of the targets in a row.
fn tail_at(row: &AnswerRow<CowText<'_>>, columns: &[TargetColumn]) -> Tail
    requires { AllByRecursion (IsTargetOf row.now) columns.now }
    ensures { result ≡ fold (with_target row.now) no_tail columns.now }
{
    let mut tail = NO_TAIL;
    for column in columns {
        tail = with_target(tail, row, *column);
    }
    tail
}

/// The tail of the reply to a query with this answer. Where the kind is one that is followed and the answer has a
/// row, the short reads of the targets in the first row follow: of the person after IC1 and IC11, of the person and
/// of the message after IC2, IC7, IC8 and IC9. None follow an answer without rows, IC13 and the short reads. Takes
/// no memory.
///
/// An id below zero, which no answer on a graph has, stands for 0.
/// The condition: each row has the columns of the read.
pub fn tail_of(query: &Query, answer: &Answer<CowText<'_>>) -> Tail
    requires columns { HaveColumns query.now answer.now }
    ensures { tail_reads query.now answer.now ≡ queries_of result }
{
    let layout = layout_of_query(query);
    match answer.as_slice().first() {
        Some(first) if layout.is_followed => tail_at(first, layout.targets),
        _ => NO_TAIL,
    }
}
