//! Connectors whose handlers answer from the graph. docs/CONNECTORS.md explains them.

ghost use Rattle.std.specs.Prelude.{◌≡◌, IfOk};
ghost use Rattle.snb_schema.specs.declared.query.ReadKind.TheVariants.{Is3};
ghost use Rattle.snb_schema.specs.ReadKinds.{read_kind_of};
ghost use Rattle.snb_graph_model.specs.Soundness.{Sound};
ghost use Rattle.snb_read_model.specs.ComplexReads.{IsAnswer};

use crate::cases::check;
use crate::told::{flaw_of, told_counts, told_rows};
use snb_base::Text;
use snb_graph::Graph;
use snb_handlers::{Call, Handler, Handlers, KINDS};
use snb_read_model::{Answer, copy_answer};
use snb_read_replies::own_answer;
use snb_schema::{Query, ReadKind};
use snb_short_reads::is3;
use snb_test_script::Flaw;
use std::alloc::{AllocError, Global};
use std::cell::Cell;
use std::rc::Rc;

/// Registers a handler of IS3 alone, and asks it for the friends of a person.
pub(crate) fn asked(alloc: Global, graph: &Graph, person: u64) -> Result<String, Flaw>
    requires { Sound graph.now }
{
    let call: Call = Box::new(
        alloc,
        move |graph: &Graph, query: &Query| -> Result<Answer<Text>, AllocError>
            requires sound { Sound graph.now }
            requires kind { read_kind_of query.now ≡ Is3 }
            ensures { IfOk result (IsAnswer graph.now query.now) }
        {
            match query {
                Query::Is3 { person } => copy_answer(&is3(alloc, graph, *person)?),
                _ => unreachable!(),
            }
        },
    )?;
    let mut handlers = Handlers::new(alloc);
    if let Err(why) = handlers.register(Handler::new(ReadKind::Is3, call)) {
        return Err(flaw_of(why));
    }
    if !handlers.has(ReadKind::Is3) {
        return Err(Flaw::OtherValue);
    }
    let answer = handlers.answer(graph, &Query::Is3 { person })?;
    told_rows(alloc, &answer, handlers.missing())
}

/// Registers a handler for each kind of read, which counts how often it is asked, and checks the cases of a file by
/// them.
pub(crate) fn checked(alloc: Global, graph: Graph, file: &[u8]) -> Result<String, Flaw>
    requires { Sound graph }
{
    let mut handlers = Handlers::new(alloc);
    let mut counts = Vec::new(alloc);
    for kind in KINDS {
        let count = Rc::new(alloc, Cell::new(0u64))?;
        counts.push((kind, count.clone()?))?;
        let call: Call = Box::new(
            alloc,
            move |graph: &Graph, query: &Query| -> Result<Answer<Text>, AllocError>
                requires { Sound graph.now }
                ensures { IfOk result (IsAnswer graph.now query.now) }
            {
                count.set(count.get().saturating_add(1));
                copy_answer(&own_answer(alloc, graph, query)?)
            },
        )?;
        if let Err(why) = handlers.register(Handler::new(kind, call)) {
            return Err(flaw_of(why));
        }
    }
    match handlers.missing() {
        Some(_) => Err(Flaw::OtherValue),
        None => {
            let came = check(alloc, &handlers, graph, file)?;
            told_counts(alloc, came.as_str(), &counts)
        }
    }
}
