//! The cases of a plan over a graph.

ghost use Rattle.std.specs.Prelude.{◌≡◌, ℕ, ◌<◌, ◌++◌, List, OnErr, OnOk, length};
ghost use Rattle.snb_schema.specs.declared.row.Row.{Row};
ghost use Rattle.snb_schema.specs.StreamLines.{IsOfLine};
ghost use Rattle.snb_schema.specs.Inserts.{rows_of};
ghost use Rattle.snb_graph_model.specs.Graphs.{HasGained, HoldsKey};
ghost use Rattle.snb_graph_model.specs.Soundness.{Sound};
ghost use Rattle.snb_inserts.specs.Applying.{IsWelcome};
ghost use Rattle.snb_plan.specs.Closed.{IsClosed};
ghost use Rattle.snb_plan.specs.Plans.{updates_in};
ghost use Rattle.snb_plan.specs.Tasks.{IsTask};
ghost use Rattle.snb_validation_model.specs.Expected.{HasExpected};
ghost use Rattle.snb_validation_expect.specs.Writing.{HasPut, HasPutAsk, HasPutInsert, HavePut, IsAt};

use crate::lines::{put_ask, put_insert};
use snb_graph::Graph;
use snb_inserts::apply_welcome;
use snb_plan::{Plan, Task};
use snb_read_laws::answers_have_columns;
use snb_replies::Replies;
use snb_schema::{Line, Query};
use snb_workers_replay::order_is_welcome;
use std::alloc::{AllocError, Global};

// Appends the case of an insert, which is welcome in the graph, and adds its rows.
fn expect_insert(
    alloc: Global,
    line: &Line,
    graph: &mut Graph,
    to: &mut Vec<u8>,
) -> Result<(), AllocError>
    requires line { IsOfLine line.now }
    requires sound { Sound graph.old }
    requires welcome { IsWelcome graph.old line.now.op }
    ensures put { OnOk result (HasPutInsert line.now to.old.items to.new.items) }
    ensures gained { OnOk result (HasGained graph.old (rows_of line.now.op) graph.new) }
    ensures sound { OnOk result (Sound graph.new) }
    ensures err { OnErr result ((front : List ℕ) × (to.new.items ≡ to.old.items ++ front)) }
{
    put_insert(alloc, line, to)?;
    apply_welcome(alloc, graph, &line.op)
}

// Appends the case of a read, with the reply on the graph.
fn expect_ask<A: Replies>(
    alloc: Global,
    answers: &A,
    query: &Query,
    graph: &Graph,
    to: &mut Vec<u8>,
) -> Result<(), AllocError>
    requires ready { A.ready answers.now }
    requires sound { Sound graph.now }
    ensures put { OnOk result (HasPutAsk graph.now query.now to.old.items to.new.items) }
    ensures err { OnErr result ((front : List ℕ) × (to.new.items ≡ to.old.items ++ front)) }
{
    answers_have_columns();
    graph.known();
    let reply = answers.reply_to(alloc, graph, query)?;
    put_ask(alloc, query, &reply, to)
}

// Appends the case of the operation of this number, and adds its rows to the graph where it is an insert.
fn expect_one<A: Replies>(
    alloc: Global,
    answers: &A,
    plan: &Plan,
    op: u32,
    graph: &mut Graph,
    to: &mut Vec<u8>,
) -> Result<(), AllocError>
    requires ready { A.ready answers.now }
    requires there { op < length plan.now.operations }
    requires at { (base : List Row) × IsAt base plan.now op graph.old }
    ensures ok { OnOk result
        ((base : List Row) → IsAt base plan.now op graph.old
        → HasPut base plan.now op to.old.items to.new.items graph.new) }
    ensures err { OnErr result ((front : List ℕ) × (to.new.items ≡ to.old.items ++ front)) }
{
    order_is_welcome();
    plan.known();
    match plan.task(op) {
        Task::Insert { line } => expect_insert(alloc, line, graph, to),
        Task::Ask { query } => expect_ask(alloc, answers, query, graph, to),
    }
}

// Appends the cases of all operations.
fn expect_all<A: Replies>(
    alloc: Global,
    answers: &A,
    plan: &Plan,
    mut graph: Graph,
    to: &mut Vec<u8>,
) -> Result<(), AllocError>
    requires ready { A.ready answers.now }
    requires at { IsAt graph plan.now 0 graph }
    ensures ok { OnOk result
        ((last : List Row) × HavePut graph plan.now (length plan.now.operations) to.old.items to.new.items last) }
    ensures err { OnErr result ((front : List ℕ) × (to.new.items ≡ to.old.items ++ front)) }
{
    let operations = plan.schedule().steps().len();
    for op in 0..operations {
        expect_one(alloc, answers, plan, op as u32, &mut graph, to)?;
    }
    Ok(())
}

/// Appends the text of the cases of a plan over a graph, by what answers reads: a header, and for each operation, in
/// the order of their numbers, a line with its insert, or with its query and the reply to it on the graph with the
/// inserts of smaller number. Each line is read as its case, by `read_case` of `snb_validation_cases`. Want of memory
/// leaves the bytes as they were.
///
/// The conditions: what answers reads is ready, the graph is sound, and the plan's updates are closed over it.
pub fn expect_via<A: Replies>(
    alloc: Global,
    answers: &A,
    plan: &Plan,
    graph: Graph,
    to: &mut Vec<u8>,
) -> Result<(), AllocError>
    requires ready { A.ready answers.now }
    requires sound { Sound graph }
    requires closed { IsClosed (HoldsKey graph) (updates_in plan.now) }
    ensures ok { OnOk result (HasExpected graph plan.now to.old.items to.new.items) }
    ensures err { OnErr result (to.new.items ≡ to.old.items) }
{
    plan.known();
    graph.known();
    let start = to.len();
    to.extend_from_slice(b"{\"cases\":1}\n")?;
    match expect_all(alloc, answers, plan, graph, to) {
        Ok(()) => Ok(()),
        Err(error) => {
            to.truncate(start);
            Err(error)
        }
    }
}
