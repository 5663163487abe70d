//! What answers reads.

ghost use Rattle.std.specs.Prelude.{IfOk};
ghost use Rattle.snb_graph_model.specs.Soundness.{Sound};
ghost use Rattle.snb_read_model.specs.ComplexReads.{IsAnswer};
ghost use Rattle.snb_read_model.specs.Replies.{IsReply};

use snb_graph::Graph;
use snb_read_model::{Answer, CowText, Reply};
use snb_schema::Query;
use std::alloc::{AllocError, Global};

/// What answers each query on a sound graph.
///
/// An error says that memory doesn't suffice, or is that of a handler. Texts are lent by the graph, or the answer's
/// own.
pub trait Replies {
    /// It has what it needs to answer each kind of read.
    ghost ready: { Self → Type 0 };

    /// The query's own answer, without those of the reads that follow it.
    /// The conditions: it is ready, and the graph is sound.
    fn answer_to<'a>(
        &self,
        alloc: Global,
        graph: &'a Graph,
        query: &Query,
    ) -> Result<Answer<CowText<'a>>, AllocError>
        requires ready { ready self.now }
        requires sound { Sound graph.now }
        ensures { IfOk result (IsAnswer graph.now query.now) };

    /// The reply to a query: its own answer, and then the answers of the short reads that follow it.
    /// The conditions: it is ready, and the graph is sound.
    fn reply_to<'a>(
        &self,
        alloc: Global,
        graph: &'a Graph,
        query: &Query,
    ) -> Result<Reply<CowText<'a>>, AllocError>
        requires ready { ready self.now }
        requires sound { Sound graph.now }
        ensures { IfOk result (IsReply graph.now query.now) };
}
