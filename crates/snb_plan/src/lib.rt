//! Plans: what is done in a run, in order, and whether each update finds what it needs.
#![tactic(auto)]

mod added;
mod closed;
mod instances;
mod law;
mod plan;
mod positions;

pub use law::{closed_is_one, closed_plan_is_not_stuck, plan_is_one};
pub use plan::{Plan, Source, Task, adds_awaited, waits};
pub use snb_schema::PlanFault;
