//! What the graph's own reads tell of a dataset and a plan.

ghost use Rattle.std.specs.Prelude.{◌≡◌, IfOk};
ghost use Rattle.snb_graph_model.specs.Soundness.{Sound};
ghost use Rattle.snb_audit_model.specs.Miscounts.{events_of};
ghost use Rattle.snb_test_workers.specs.Wholes.{IsWhole};

use snb_base::{Clock, Gate, MemoryShelf};
use snb_graph::Graph;
use snb_history::{Event, Logged};
use snb_input_files::Load;
use snb_miscount::Miscount;
use snb_own_reads::{OwnReplica, check_cases, expect, first_miscount, run_alone};
use snb_plan::{Plan, Task};
use snb_replica::Replica;
use snb_validation::reply_text;
use snb_validation_check::Tally;
use std::alloc::{AllocError, Global};
use std::sync::Wait;

// A log of these events that tells 7 rows at each.
fn log_of_sevens(alloc: Global, events: &[Event]) -> Result<Vec<Logged>, AllocError>
    ensures { IfOk result (λ logged. events_of logged.items ≡ events.now) }
{
    let mut logged = Vec::with_capacity(alloc, events.len())?;
    for event in events {
        logged.push(Logged {
            event: *event,
            rows: Some(7),
        })?;
    }
    Ok(logged)
}

/// The first wrong count of a log that tells 7 rows everywhere, of a run by one worker.
pub(crate) fn miscount_of_sevens<R: Wait, C: Clock, G: Gate>(
    rt: &R,
    alloc: Global,
    plan: &Plan,
    graph: &Graph,
    clock: &C,
    gate: &G,
) -> Result<Option<Miscount>, AllocError>
    requires { IsWhole graph.now plan.now }
{
    let outcome = run_alone(rt, alloc, plan, graph, clock, gate)?;
    let logged = log_of_sevens(alloc, outcome.events.as_slice())?;
    first_miscount(alloc, plan, graph, &logged)
}

/// What the cases of the plan are found to be, once they are made.
pub(crate) fn checked(alloc: Global, plan: &Plan, graph: &Graph) -> Result<Tally, Load>
    requires { IsWhole graph.now plan.now }
{
    let mut text = Vec::new(alloc);
    expect(alloc, plan, graph.try_copy()?, &mut text)?;
    let mut shelf = MemoryShelf::new(alloc);
    shelf.add("cases", &text)?;
    check_cases(alloc, &mut shelf, "cases", graph.try_copy()?)
}

/// The text of the reply to the first read of the plan, on a replica of the dataset; without bytes where there is none.
pub(crate) fn first_reply(alloc: Global, plan: &Plan, graph: &Graph) -> Result<Vec<u8>, AllocError>
    requires { Sound graph.now }
{
    let replica = Replica::new(graph)?;
    let mut text = Vec::new(alloc);
    let operations = plan.schedule().steps().len();
    for op in 0..operations {
        if let Task::Ask { query } = plan.task(op as u32) {
            reply_text(&replica.answer(alloc, query)?, &mut text)?;
            return Ok(text);
        }
    }
    Ok(text)
}
