//! Whether a graph is sound, asked of the graph itself.

ghost use Rattle.std.specs.Prelude.{IfErr, List, OnOk};
ghost use Rattle.snb_schema.specs.declared.row.Row.{Row};
ghost use Rattle.snb_graph_integrity.specs.Outcomes.{IsWrong};
ghost use Rattle.snb_graph_model.specs.Soundness.{HoldsRefs, Sound};

use snb_graph::Graph;
use snb_graph_integrity::{Unsound, sound};

/// What can tell whether it is sound.
pub trait Soundness {
    /// The rows of its graph.
    ghost rows: { Self → List Row };

    /// Whether the graph is sound, where each node that a row refers to is held: each node has the
    /// edges that it must have, and the chain of each comment's parents ends at a post. `Lacks` names
    /// the first edge that is missing, by the node's table, then its id, then the edge's table. `Cycle`
    /// says that nothing is missing, and names the least comment whose chain has no end: it is in a
    /// cycle, or hangs below one. `Memory` says that memory doesn't suffice. It doesn't look at
    /// references.
    fn sound(&self) -> Result<(), Unsound>
        ensures ok { OnOk result (HoldsRefs (rows self.now) → Sound (rows self.now)) }
        ensures err { IfErr result (IsWrong (rows self.now)) };
}

impl Soundness for Graph {
    ghost rows = { λ g. g };

    fn sound(&self) -> Result<(), Unsound> {
        sound(*self.allocator(), self.tables())
    }
}
