//! Rows of answers, answers of reads, and replies to queries.

ghost use Rattle.std.specs.Prelude.{◌≡◌, ◌∷◌, IfOk};

use crate::cell::Cell;
use crate::cow_text::CowText;
use snb_base::{OwnedList, Text};
use std::alloc::{AllocError, Global};

/// A row of an answer: its cells in the order of the columns.
pub type AnswerRow<T> = OwnedList<Cell<T>>;

/// The answer of a read: its rows in order.
pub type Answer<T> = OwnedList<AnswerRow<T>>;

/// What a query is replied: its own answer, and the answers of the short reads that follow, in order.
pub type Reply<T> = OwnedList<Answer<T>>;

/// An equal answer, with texts of its own.
pub fn copy_answer(answer: &Answer<CowText<'_>>) -> Result<Answer<Text>, AllocError>
    ensures { IfOk result (λ copy. copy ≡ answer.now) }
{
    answer.try_map(|row| row.try_map(|cell| cell.to_texts()))
}

/// An equal answer, whose texts are lent.
pub fn lend_answer(answer: &Answer<Text>) -> Result<Answer<CowText<'_>>, AllocError>
    ensures { IfOk result (λ lent. lent ≡ answer.now) }
{
    answer.try_map(|row| row.try_map(|cell| cell.lend()))
}

/// The answer with the same texts, none of them copied.
pub fn cow_answer<'a>(answer: Answer<Text>) -> Result<Answer<CowText<'a>>, AllocError>
    ensures { IfOk result (λ cow. cow ≡ answer) }
{
    answer.into_map(|row| row.into_map(|cell| cell.into_cow()))
}

/// An equal reply, with texts of its own.
pub fn copy_reply(reply: &Reply<CowText<'_>>) -> Result<Reply<Text>, AllocError>
    ensures { IfOk result (λ copy. copy ≡ reply.now) }
{
    reply.try_map(|answer| copy_answer(answer))
}

/// An equal reply, whose texts are lent.
pub fn lend_reply(reply: &Reply<Text>) -> Result<Reply<CowText<'_>>, AllocError>
    ensures { IfOk result (λ lent. lent ≡ reply.now) }
{
    reply.try_map(|answer| lend_answer(answer))
}

/// The reply with the same texts, none of them copied.
pub fn cow_reply<'a>(reply: Reply<Text>) -> Result<Reply<CowText<'a>>, AllocError>
    ensures { IfOk result (λ cow. cow ≡ reply) }
{
    reply.into_map(|answer| cow_answer(answer))
}

/// The reply of a query's own answer and the answers that follow it.
pub fn reply_with_tail<T: Drop>(
    alloc: Global,
    own: Answer<T>,
    tail: Vec<Answer<T>>,
) -> Result<Reply<T>, AllocError>
    ensures { IfOk result (λ reply. reply ≡ own ∷ tail.items) }
{
    let mut items = tail;
    items.insert(0, own)?;
    Ok(OwnedList::from_vec(alloc, items))
}
