//! Why a graph isn't sound.

ghost use Rattle.snb_graph_integrity.specs.declared.unsound.Unsound.TheVariants.{Memory};

use snb_schema::Table;
use std::alloc::AllocError;

/// Why a graph isn't sound.
#[derive(Clone, Copy)]
pub enum Unsound {
    /// A node lacks an edge that it must have: the first by the node's table, then its id, then the
    /// edge's table.
    Lacks { table: Table, id: u64, edge: Table },
    /// The chain of a comment's parents doesn't end at a post: the least such comment.
    Cycle { comment: u64 },
    /// Memory doesn't suffice.
    Memory,
}

impl From<AllocError> for Unsound {
    ghost use Rattle.std.specs.Prelude.{◌≡◌};

    ghost from_gives = { λ _ e. e ≡ Memory };

    fn from(_error: AllocError) -> Unsound {
        Unsound::Memory
    }
}
