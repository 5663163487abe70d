//! The cases of a plan over a graph.

ghost use Rattle.std.specs.Prelude.{◌≡◌, OnErr, OnOk};
ghost use Rattle.snb_graph_model.specs.Graphs.{HoldsKey};
ghost use Rattle.snb_graph_model.specs.Soundness.{Sound};
ghost use Rattle.snb_plan.specs.Closed.{IsClosed};
ghost use Rattle.snb_plan.specs.Plans.{updates_in};
ghost use Rattle.snb_validation_model.specs.Expected.{HasExpected};

use snb_graph::Graph;
use snb_plan::Plan;
use snb_read_replies::OwnReads;
use snb_validation_expect::expect_via;
use std::alloc::{AllocError, Global};

/// Appends the text of the cases of a plan over a graph, as `expect_via` of `snb_validation_expect` does by the
/// graph's own reads. Want of memory leaves the bytes as they were.
///
/// The conditions: the graph is sound, and the plan's updates are closed over it.
pub fn expect(alloc: Global, plan: &Plan, graph: Graph, to: &mut Vec<u8>) -> Result<(), AllocError>
    requires sound { Sound graph }
    requires closed { IsClosed (HoldsKey graph) (updates_in plan.now) }
    ensures ok { OnOk result (HasExpected graph plan.now to.old.items to.new.items) }
    ensures err { OnErr result (to.new.items ≡ to.old.items) }
{
    expect_via(alloc, &OwnReads, plan, graph, to)
}
