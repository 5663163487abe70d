//! The reads of a step.

ghost use Rattle.std.specs.Prelude.{◌≡◌, IfOk};
ghost use Rattle.snb_graph_model.specs.Soundness.{Sound};
ghost use Rattle.snb_read_model.specs.ComplexReads.{IsAnswer};
ghost use Rattle.snb_walk.specs.Targets.{HaveAnswers, reads_of};

use crate::target::Target;
use crate::targets::push_targets;
use snb_base::Text;
use snb_graph::Graph;
use snb_read_laws::answers_have_columns;
use snb_read_model::{Answer, Reply, copy_answer};
use snb_replies::Replies;
use snb_schema::Query;
use std::alloc::{AllocError, Global};

// The reads that ask about a target.
fn reads_of(alloc: Global, target: Target) -> Result<Vec<Query>, AllocError>
    ensures { IfOk result (λ reads. reads.items ≡ reads_of target) }
{
    let mut reads = Vec::new(alloc);
    match target {
        Target::Person { id: person } => {
            reads.push(Query::Is1 { person })?;
            reads.push(Query::Is2 { person })?;
            reads.push(Query::Is3 { person })?;
        }
        Target::Message { id: message } => {
            reads.push(Query::Is4 { message })?;
            reads.push(Query::Is5 { message })?;
            reads.push(Query::Is6 { message })?;
            reads.push(Query::Is7 { message })?;
        }
    }
    Ok(reads)
}

// The answer to a read, with texts of its own.
pub(crate) fn answer_of<A: Replies>(
    alloc: Global,
    answers: &A,
    graph: &Graph,
    query: &Query,
) -> Result<Answer<Text>, AllocError>
    requires ready { A.ready answers.now }
    requires sound { Sound graph.now }
    ensures { IfOk result (IsAnswer graph.now query.now) }
{
    copy_answer(&answers.answer_to(alloc, graph, query)?)
}

// The answers to reads, and their targets.
fn answers_to<A: Replies>(
    alloc: Global,
    answers: &A,
    graph: &Graph,
    reads: &[Query],
) -> Result<(Reply<Text>, Vec<Target>), AllocError>
    requires sound { Sound graph.now }
    requires ready { A.ready answers.now }
    ensures { IfOk result (λ came. HaveAnswers graph.now reads.now came.0 came.1.items) }
{
    answers_have_columns();
    let mut reply = Reply::new(alloc);
    let mut targets = Vec::new(alloc);
    for read in reads {
        let answer = answer_of(alloc, answers, graph, read)?;
        push_targets(&mut targets, read, &answer)?;
        reply.push(answer)?;
    }
    Ok((reply, targets))
}

// The reply of a step to a target, and the targets of its answers. An error is that of what answers, or says that
// memory doesn't suffice.
// The conditions: the graph is sound, and what answers reads is ready.
pub(crate) fn step_to<A: Replies>(
    alloc: Global,
    answers: &A,
    graph: &Graph,
    target: Target,
) -> Result<(Reply<Text>, Vec<Target>), AllocError>
    requires sound { Sound graph.now }
    requires ready { A.ready answers.now }
    ensures { IfOk result (λ came. HaveAnswers graph.now (reads_of target) came.0 came.1.items) }
{
    let reads = reads_of(alloc, target)?;
    answers_to(alloc, answers, graph, &reads)
}
