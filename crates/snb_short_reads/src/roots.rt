//! The posts at the roots of messages.

ghost use Rattle.std.specs.Prelude.{Contains};
ghost use Rattle.snb_schema.specs.declared.table.Kind.TheVariants as kinds;
ghost use Rattle.snb_schema.specs.Inserts.{parent_row};
ghost use Rattle.snb_schema.specs.RowKeys.{node_key};
ghost use Rattle.snb_short_reads.specs.Roots.{IsOnlyRoot};
ghost use Rattle.snb_graph_model.specs.Graphs.{HasKey};
ghost use Rattle.snb_graph_model.specs.Messages.{HasMessage};
ghost use Rattle.snb_graph_model.specs.Soundness.{Sound};

use snb_graph::Graph;
use snb_graph_integrity::sound_graphs;
use snb_schema::{Parent, Table};

// The message to which a comment replies.
fn parent(graph: &Graph, comment: u64) -> Parent
    requires sound { Sound graph.now }
    requires held { HasKey graph.now (node_key kinds.Comment comment) }
    ensures { Contains graph.now (parent_row comment result) }
{
    if let Some(id) = graph.one(Table::CommentReplyOfPost, comment) {
        return Parent::Post { id };
    }
    match graph.one(Table::CommentReplyOfComment, comment) {
        Some(id) => Parent::Comment { id },
        None => unreachable!(),
    }
}

// The post at the end of the chain of a comment's parents.
fn comment_root(graph: &Graph, comment: u64) -> u64
    requires sound { Sound graph.now }
    requires held { HasKey graph.now (node_key kinds.Comment comment) }
    ensures { IsOnlyRoot graph.now comment result }
{
    graph.known();
    sound_graphs();
    let mut at = comment;
    // No chain is longer than there are comments.
    for _done in 0..graph.count(Table::Comment) {
        match parent(graph, at) {
            Parent::Post { id } => return id,
            Parent::Comment { id } => at = id,
        }
    }
    unreachable!()
}

/// The id of the post at the root of a message. Takes no memory.
/// The conditions: the graph is sound, and the message is held.
pub fn root(graph: &Graph, message: u64) -> u64
    requires sound { Sound graph.now }
    requires held { HasMessage graph.now message }
    ensures { IsOnlyRoot graph.now message result }
{
    graph.known();
    sound_graphs();
    let Some(_) = graph.post(message) else {
        return comment_root(graph, message);
    };
    message
}
