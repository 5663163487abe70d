//! The nodes that an insert refers to.

ghost use Rattle.snb_schema.specs.References.{refs_of};
ghost use Rattle.snb_inserts.specs.Applying.{FindsMissing};

use snb_graph::Graph;
use snb_schema::{Held, Key, Missing, Op, refs_of};

/// The first node that the insert refers to, in the order of its fields, and that isn't held.
pub fn first_missing(graph: &Graph, op: &Op) -> Option<Missing>
    ensures { FindsMissing graph.now (refs_of op.now) result }
{
    for node in refs_of(op) {
        let key = Key::Node {
            kind: node.kind,
            id: node.id,
        };
        if !graph.has(&key) {
            return Some(node);
        }
    }
    None
}
