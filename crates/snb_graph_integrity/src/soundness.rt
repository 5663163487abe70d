//! Whether a graph is sound.

ghost use Rattle.std.specs.Prelude.{◌↔◌, IfErr, IsTrue, OnOk};
ghost use Rattle.snb_graph_integrity.specs.Counts.{AreFull};
ghost use Rattle.snb_graph_integrity.specs.Outcomes.{IsWrong};
ghost use Rattle.snb_graph_integrity.specs.Rising.{IsRising};
ghost use Rattle.snb_graph_model.specs.Soundness.{HoldsRefs, Sound};

use crate::chains::check_chains;
use crate::counts::are_full;
use crate::edges::check_edges;
use crate::rising::is_rising;
use crate::unsound::Unsound;
use snb_graph_tables::Tables;
use std::alloc::Global;

// Whether each comment has a higher id than its parent, so that no chain is a cycle, and there are as
// many edges as nodes that must have them, so that none is lacking: where references are all held, the
// graph is sound. If not, it may be sound nevertheless.
fn is_regular(tables: &Tables) -> bool
    ensures { IsTrue result ↔ (IsRising tables.now.rows × AreFull tables.now.rows) }
{
    is_rising(tables) && are_full(tables)
}

/// Whether a graph is sound, where its references are all held: each node has the edges that it must
/// have, and the chain of each comment's parents ends at a post. If not, what is wrong first. It
/// doesn't look at references.
pub fn sound(alloc: Global, tables: &Tables) -> Result<(), Unsound>
    ensures ok { OnOk result (HoldsRefs tables.now.rows → Sound tables.now.rows) }
    ensures err { IfErr result (IsWrong tables.now.rows) }
{
    tables.known();
    if is_regular(tables) {
        return Ok(());
    }
    check_edges(tables)?;
    check_chains(alloc, tables)
}
