//! What a replica replies by the graph's own reads.

ghost use Rattle.std.specs.Prelude.{IfOk, List};
ghost use Rattle.snb_schema.specs.declared.row.Row.{Row};
ghost use Rattle.snb_read_model.specs.Replies.{IsReply};

use snb_read_model::{CowText, Reply};
use snb_read_replies::OwnReads;
use snb_replica::Replica;
use snb_schema::Query;
use std::alloc::{AllocError, Global};

/// A replica that replies by the graph's own reads.
pub trait OwnReplica {
    /// Its graph.
    ghost graph: { Self → List Row };

    /// The reply to a query on its graph.
    fn answer(&self, alloc: Global, query: &Query) -> Result<Reply<CowText<'_>>, AllocError>
        ensures { IfOk result (IsReply (graph self.now) query.now) };
}

impl OwnReplica for Replica {
    ghost graph = { λ r. r.graph };

    fn answer(&self, alloc: Global, query: &Query) -> Result<Reply<CowText<'_>>, AllocError> {
        self.answer_via(alloc, &OwnReads, query)
    }
}
