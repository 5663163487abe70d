//! The kinds of a plan's operations.

ghost use Rattle.std.specs.Prelude.{◌≡◌, IfOk, length};
ghost use Rattle.snb_plan.specs.Tasks.{work_of};
ghost use Rattle.snb_summary.specs.Works.{kinds_in, query_kind, work_kind};

use crate::kind::OpKind;
use snb_plan::{Plan, Task};
use snb_schema::Query;
use std::alloc::{AllocError, Global};

// The kind of a read, if it is a complex one.
fn query_kind(query: &Query) -> Option<OpKind>
    ensures { result ≡ query_kind query.now }
{
    let kind = query.kind();
    if kind.number() == 0 {
        None
    } else {
        Some(OpKind::Read { kind })
    }
}

// The kind of what an operation does.
fn task_kind(task: Task<'_>) -> Option<OpKind>
    ensures { result ≡ work_kind (work_of task.entry) }
{
    match task {
        Task::Insert { line } => Some(OpKind::Insert {
            kind: line.op.kind(),
        }),
        Task::Ask { query } => query_kind(query),
    }
}

// How many operations the plan has.
fn count_of(plan: &Plan) -> u32
    ensures { result ≡ length plan.now.operations }
{
    plan.schedule().steps().len() as u32
}

/// The kinds of the plan's operations, in the order of their numbers.
pub fn kinds_of(alloc: Global, plan: &Plan) -> Result<Vec<Option<OpKind>>, AllocError>
    ensures { IfOk result (λ kinds. kinds.items ≡ kinds_in plan.now) }
{
    let mut kinds = Vec::new(alloc);
    for op in 0..count_of(plan) {
        kinds.push(task_kind(plan.task(op)))?;
    }
    Ok(kinds)
}
