//! The complex read of the replies to a person's messages.

ghost use Rattle.std.specs.Prelude.{◌∷◌, [], IfOk, OnOk};
ghost use Rattle.std.specs.List.{All};
ghost use Rattle.snb_complex_messages.specs.Found.{HasAppended, IsCommentFound};
ghost use Rattle.snb_graph_model.specs.Around.{replies};
ghost use Rattle.snb_read_model.specs.MessageReads.{Ic8Answer, ShowsReply};
ghost use Rattle.snb_read_model.specs.Order.{ReadAnswers, Falling, FirstRows, Rising};
ghost use Rattle.snb_graph_model.specs.Soundness.{Sound};

use snb_base::list_of;
use snb_graph::Graph;
use snb_graph_integrity::sound_graphs;
use snb_read_lookups::{author_id, known, words};
use snb_read_model::{Answer, AnswerRow, Cell, CowText};
use snb_read_order::first_of;
use std::alloc::{AllocError, Global};

// The row of a reply: (comment, date).
fn reply_row(
    alloc: Global,
    graph: &Graph,
    reply: (u64, u64),
) -> Result<AnswerRow<CowText<'_>>, AllocError>
    requires sound { Sound graph.now }
    requires found { IsCommentFound graph.now reply }
    ensures { IfOk result (ShowsReply graph.now reply) }
{
    graph.known();
    let Some(comment) = graph.comment(reply.0) else {
        unreachable!()
    };
    let author = known(graph, author_id(graph, reply.0));
    let cells = vec![in alloc;
        Cell::number(author.id),
        words(&author.first_name),
        words(&author.last_name),
        Cell::number(reply.1),
        Cell::number(reply.0),
        words(&comment.content),
    ]?;
    Ok(AnswerRow::from_vec(alloc, cells))
}

// The rows of the latest twenty of the replies that were found.
fn latest_replies(
    alloc: Global,
    graph: &Graph,
    found: Vec<(u64, u64)>,
) -> Result<Answer<CowText<'_>>, AllocError>
    requires sound { Sound graph.now }
    requires found { All (IsCommentFound graph.now) found.items }
    ensures { IfOk result (ReadAnswers found.items (ShowsReply graph.now) (Falling 4 ∷ Rising 5 ∷ []) (FirstRows 20)) }
{
    graph.known();
    sound_graphs();
    let first = first_of(found, 20, |a, b| b.1.cmp(&a.1).then(a.0.cmp(&b.0)));
    list_of(
        alloc,
        first.as_slice(),
        |reply| reply_row(alloc, graph, *reply),
    )
}

// Appends the direct replies to a message, each as (comment, date).
fn add_replies(graph: &Graph, message: u64, found: &mut Vec<(u64, u64)>) -> Result<(), AllocError>
    ensures { OnOk result (HasAppended (replies graph.now message) found.old.items found.new.items) }
{
    for (comment, date) in graph.replies(message) {
        found.push((comment, date))?;
    }
    Ok(())
}

/// Complex read 8: the twenty latest direct replies to a person's messages, each with its author; of replies
/// of one date the one of the lower id first. A person who isn't held gives no rows.
/// The condition: the graph is sound.
pub fn ic8(alloc: Global, graph: &Graph, person: u64) -> Result<Answer<CowText<'_>>, AllocError>
    requires sound { Sound graph.now }
    ensures { IfOk result (Ic8Answer graph.now person) }
{
    graph.known();
    sound_graphs();
    let mut found = Vec::new(alloc);
    for (message, _) in graph.messages(person) {
        add_replies(graph, message, &mut found)?;
    }
    latest_replies(alloc, graph, found)
}
