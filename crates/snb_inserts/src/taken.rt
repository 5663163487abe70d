//! Whether what an insert adds is there already.

ghost use Rattle.std.specs.Prelude.{◌↔◌, IsTrue};
ghost use Rattle.snb_schema.specs.Inserts.{keys_of};
ghost use Rattle.snb_inserts.specs.Applying.{IsAnyHeld};

use snb_graph::Graph;
use snb_schema::{Held, Op, keys_of};

/// Whether a key that the insert takes is held: that of its node or of its edge, and for a post or a
/// comment that of either with its id.
pub fn is_taken(graph: &Graph, op: &Op) -> bool
    ensures { IsTrue result ↔ IsAnyHeld graph.now (keys_of op.now) }
{
    let keys = keys_of(op);
    if graph.has(&keys.one) {
        return true;
    }
    match &keys.other {
        None => false,
        Some(other) => graph.has(other),
    }
}
