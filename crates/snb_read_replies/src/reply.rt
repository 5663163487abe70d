//! A query's answer, with the answers of the short reads that follow it.

ghost use Rattle.std.specs.Prelude.{IfOk};
ghost use Rattle.std.specs.List.{AllZip};
ghost use Rattle.snb_read_model.specs.ComplexReads.{IsAnswer};
ghost use Rattle.snb_read_model.specs.Replies.{IsReply};
ghost use Rattle.snb_graph_model.specs.Soundness.{Sound};

use snb_complex_messages::{ic2, ic7, ic8, ic9};
use snb_complex_persons::{ic1, ic11};
use snb_graph::Graph;
use snb_reach::ic13;
use snb_read_model::{Answer, CowText, Reply, reply_with_tail, tail_of};
use snb_replies::Replies;
use snb_schema::Query;
use snb_short_reads::{is1, is2, is3, is4, is5, is6, is7};
use std::alloc::{AllocError, Global};

/// The query's own answer, without those of the reads that follow it.
/// The condition: the graph is sound.
pub fn own_answer<'a>(
    alloc: Global,
    graph: &'a Graph,
    query: &Query,
) -> Result<Answer<CowText<'a>>, AllocError>
    requires sound { Sound graph.now }
    ensures { IfOk result (IsAnswer graph.now query.now) }
{
    match query {
        Query::Is1 { person } => is1(alloc, graph, *person),
        Query::Is2 { person } => is2(alloc, graph, *person),
        Query::Is3 { person } => is3(alloc, graph, *person),
        Query::Is4 { message } => is4(alloc, graph, *message),
        Query::Is5 { message } => is5(alloc, graph, *message),
        Query::Is6 { message } => is6(alloc, graph, *message),
        Query::Is7 { message } => is7(alloc, graph, *message),
        Query::Ic1 { person, first_name } => ic1(alloc, graph, *person, first_name.as_str()),
        Query::Ic2 { person, max_date } => ic2(alloc, graph, *person, *max_date),
        Query::Ic7 { person } => ic7(alloc, graph, *person),
        Query::Ic8 { person } => ic8(alloc, graph, *person),
        Query::Ic9 { person, max_date } => ic9(alloc, graph, *person, *max_date),
        Query::Ic11 {
            person,
            country,
            year,
        } => ic11(alloc, graph, *person, country.as_str(), *year),
        Query::Ic13 { from, to } => ic13(alloc, graph, *from, *to),
    }
}

// The answers to queries, each its own.
fn own_answers<'a>(
    alloc: Global,
    graph: &'a Graph,
    queries: &[Query],
) -> Result<Vec<Answer<CowText<'a>>>, AllocError>
    requires sound { Sound graph.now }
    ensures { IfOk result (λ answers. AllZip (IsAnswer graph.now) queries.now answers.items) }
{
    let mut answers = Vec::new(alloc);
    for query in queries {
        answers.push(own_answer(alloc, graph, query)?)?;
    }
    Ok(answers)
}

/// The reply to a query: its own answer, and then the answers of the short reads that follow it.
/// The condition: the graph is sound.
pub fn answer<'a>(
    alloc: Global,
    graph: &'a Graph,
    query: &Query,
) -> Result<Reply<CowText<'a>>, AllocError>
    requires sound { Sound graph.now }
    ensures { IfOk result (IsReply graph.now query.now) }
{
    let own = own_answer(alloc, graph, query)?;
    let follow = tail_of(query, &own).queries(alloc)?;
    let tail = own_answers(alloc, graph, &follow)?;
    reply_with_tail(alloc, own, tail)
}

/// The graph's own reads.
#[derive(Clone, Copy)]
pub struct OwnReads;

impl Replies for OwnReads {
    ghost ready = { λ _. Unit {0} };

    fn answer_to<'a>(
        &self,
        alloc: Global,
        graph: &'a Graph,
        query: &Query,
    ) -> Result<Answer<CowText<'a>>, AllocError> {
        own_answer(alloc, graph, query)
    }

    fn reply_to<'a>(
        &self,
        alloc: Global,
        graph: &'a Graph,
        query: &Query,
    ) -> Result<Reply<CowText<'a>>, AllocError> {
        answer(alloc, graph, query)
    }
}
