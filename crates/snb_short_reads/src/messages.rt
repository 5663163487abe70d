//! The short reads of a message.

ghost use Rattle.std.specs.Prelude.{◌≡◌, ◌∷◌, [], IfOk};
ghost use Rattle.snb_read_model.specs.ShortReads.{Is4Answer, Is5Answer, Is6Answer, Is7Answer, IsCreator, IsForum, IsReplyTo};
ghost use Rattle.snb_short_reads.specs.Found.{AreReplies, IsReplyFound, without_author};
ghost use Rattle.snb_graph_model.specs.Messages.{HasMessage};
ghost use Rattle.snb_graph_model.specs.Soundness.{Sound};

use crate::persons::only;
use crate::roots::root;
use snb_base::list_of;
use snb_graph::Graph;
use snb_graph_integrity::sound_graphs;
use snb_read_lookups::{are_friends, author_id, forum, known, moderator, shown, words};
use snb_read_model::{Answer, AnswerRow, Cell, CowText};
use snb_read_order::in_order;
use std::alloc::{AllocError, Global};

/// Short read 4: the message. One that isn't held gives no rows.
/// The condition: the graph is sound.
pub fn is4(alloc: Global, graph: &Graph, message: u64) -> Result<Answer<CowText<'_>>, AllocError>
    requires sound { Sound graph.now }
    ensures { IfOk result (Is4Answer graph.now message) }
{
    let Some((date, content)) = shown(graph, message) else {
        return Ok(Answer::new(alloc));
    };
    let cells = vec![in alloc; Cell::number(date), words(content)]?;
    only(alloc, AnswerRow::from_vec(alloc, cells))
}

// The row of a message's creator.
fn creator(alloc: Global, graph: &Graph, message: u64) -> Result<AnswerRow<CowText<'_>>, AllocError>
    requires sound { Sound graph.now }
    requires held { HasMessage graph.now message }
    ensures { IfOk result (IsCreator graph.now message) }
{
    let author = known(graph, author_id(graph, message));
    let cells = vec![in alloc;
        Cell::number(author.id),
        words(&author.first_name),
        words(&author.last_name),
    ]?;
    Ok(AnswerRow::from_vec(alloc, cells))
}

/// Short read 5: the creator of a message. A message that isn't held gives no rows.
/// The condition: the graph is sound.
pub fn is5(alloc: Global, graph: &Graph, message: u64) -> Result<Answer<CowText<'_>>, AllocError>
    requires sound { Sound graph.now }
    ensures { IfOk result (Is5Answer graph.now message) }
{
    let Some(_) = shown(graph, message) else {
        return Ok(Answer::new(alloc));
    };
    only(alloc, creator(alloc, graph, message)?)
}

// The row of the forum of a message's root.
fn forum_row(
    alloc: Global,
    graph: &Graph,
    message: u64,
) -> Result<AnswerRow<CowText<'_>>, AllocError>
    requires sound { Sound graph.now }
    requires held { HasMessage graph.now message }
    ensures { IfOk result (IsForum graph.now message) }
{
    let forum = forum(graph, root(graph, message));
    let person = known(graph, moderator(graph, forum.id));
    let cells = vec![in alloc;
        Cell::number(forum.id),
        words(&forum.title),
        Cell::number(person.id),
        words(&person.first_name),
        words(&person.last_name),
    ]?;
    Ok(AnswerRow::from_vec(alloc, cells))
}

/// Short read 6: the forum of the post at a message's root, with its moderator. A message that isn't
/// held gives no rows.
/// The condition: the graph is sound.
pub fn is6(alloc: Global, graph: &Graph, message: u64) -> Result<Answer<CowText<'_>>, AllocError>
    requires sound { Sound graph.now }
    ensures { IfOk result (Is6Answer graph.now message) }
{
    let Some(_) = shown(graph, message) else {
        return Ok(Answer::new(alloc));
    };
    only(alloc, forum_row(alloc, graph, message)?)
}

// The replies to a message, each with its author.
fn replies(alloc: Global, graph: &Graph, message: u64) -> Result<Vec<(u64, u64, u64)>, AllocError>
    requires sound { Sound graph.now }
    ensures { IfOk result (λ found. AreReplies graph.now message found.items) }
{
    graph.known();
    sound_graphs();
    let mut found = Vec::new(alloc);
    for (id, date) in graph.replies(message) {
        found.push((id, date, author_id(graph, id)))?;
    }
    Ok(found)
}

// The row of a reply to a message.
fn reply_row(
    alloc: Global,
    graph: &Graph,
    message: u64,
    reply: (u64, u64, u64),
) -> Result<AnswerRow<CowText<'_>>, AllocError>
    requires sound { Sound graph.now }
    requires found { IsReplyFound graph.now message reply }
    ensures { IfOk result (IsReplyTo graph.now message (without_author reply)) }
{
    graph.known();
    let Some(comment) = graph.comment(reply.0) else {
        unreachable!()
    };
    let author = known(graph, author_id(graph, reply.0));
    let value = are_friends(graph, author_id(graph, message), author.id);
    let cells = vec![in alloc;
        Cell::number(reply.0),
        words(&comment.content),
        Cell::number(reply.1),
        Cell::number(author.id),
        words(&author.first_name),
        words(&author.last_name),
        Cell::Flag { value },
    ]?;
    Ok(AnswerRow::from_vec(alloc, cells))
}

/// Short read 7: the direct replies to a message, from the latest on, each with its author and whether
/// that author is a friend of the message's; of replies of one date those of the author of the lower id
/// first, and of these the one of the lower id. A message that isn't held gives no rows.
/// The condition: the graph is sound.
pub fn is7(alloc: Global, graph: &Graph, message: u64) -> Result<Answer<CowText<'_>>, AllocError>
    requires sound { Sound graph.now }
    ensures { IfOk result (Is7Answer graph.now message) }
{
    let found = replies(alloc, graph, message)?;
    let ordered = in_order(found, |a, b| {
        b.1.cmp(&a.1).then(a.2.cmp(&b.2)).then(a.0.cmp(&b.0))
    });
    list_of(
        alloc,
        ordered.as_slice(),
        |reply| reply_row(alloc, graph, message, *reply),
    )
}
