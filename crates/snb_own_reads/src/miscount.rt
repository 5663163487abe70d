//! Counts of a log that aren't right.

ghost use Rattle.std.specs.Prelude.{ℕ, IfOk};
ghost use Rattle.snb_history.specs.Rules.{IsLegal};
ghost use Rattle.snb_graph_model.specs.Graphs.{HoldsKey};
ghost use Rattle.snb_graph_model.specs.Soundness.{Sound};
ghost use Rattle.snb_plan.specs.Closed.{IsClosed};
ghost use Rattle.snb_plan.specs.Plans.{schedule_of, updates_in};
ghost use Rattle.snb_audit_model.specs.Miscounts.{IsFirstMiscount, events_of};

use snb_graph::Graph;
use snb_history::Logged;
use snb_miscount::{Miscount, first_miscount_via};
use snb_plan::Plan;
use snb_read_replies::OwnReads;
use std::alloc::{AllocError, Global};

/// The first event of a log that is a Finish with a wrong count of rows, if there is one, as `first_miscount_via` of
/// `snb_workers` tells it by the graph's own reads.
///
/// The conditions: the base is sound, the plan's updates are closed over it, and the events that are logged
/// are a legal history of the plan by some number of workers.
pub fn first_miscount(
    alloc: Global,
    plan: &Plan,
    base: &Graph,
    logged: &[Logged],
) -> Result<Option<Miscount>, AllocError>
    requires sound { Sound base.now }
    requires closed { IsClosed (HoldsKey base.now) (updates_in plan.now) }
    requires legal { (workers : ℕ) × IsLegal (schedule_of plan.now) workers (events_of logged.now) }
    ensures { IfOk result (IsFirstMiscount base.now plan.now logged.now) }
{
    first_miscount_via(alloc, &OwnReads, plan, base, logged)
}
