//! The summary of a history of a plan.

ghost use Rattle.std.specs.Prelude.{ℕ, IfOk};
ghost use Rattle.snb_history.specs.Rules.{IsComplete, IsLegal};
ghost use Rattle.snb_plan.specs.Plans.{schedule_of};
ghost use Rattle.snb_summary.specs.Summaries.{IsSummary};
ghost use Rattle.snb_summary.specs.Works.{run_of};

use crate::summary::{Summary, measures_of};
use crate::times::Times;
use crate::works::kinds_of;
use snb_history::Event;
use snb_plan::Plan;
use std::alloc::{AllocError, Global};

/// The summary of a run: for each kind in order, and each measure in order, what is told of it, where it
/// has a value. An error says that memory doesn't suffice.
/// The conditions: the events are a legal history of the plan for some number of workers, and a complete one.
pub fn summarise(alloc: Global, plan: &Plan, events: &[Event]) -> Result<Summary, AllocError>
    requires legal { (workers : ℕ) × IsLegal (schedule_of plan.now) workers events.now }
    requires complete { IsComplete (schedule_of plan.now) events.now }
    ensures { IfOk result (IsSummary (run_of plan.now events.now)) }
{
    let kinds = kinds_of(alloc, plan)?;
    let schedule = plan.schedule();
    let times = Times::of(alloc, schedule, events)?;
    measures_of(alloc, schedule, &kinds, &times)
}
