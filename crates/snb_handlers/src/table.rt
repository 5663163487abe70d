//! How handlers are registered and asked.

ghost use Rattle.std.specs.Prelude.{◌≡◌, ◌↔◌, ◌∷◌, ◌++◌, [], Contains, Err, IfOk, IsTrue, MatchOption, OnErr, OnOk};
ghost use Rattle.std.specs.List.{AllByRecursion, AllZip};
ghost use Rattle.snb_schema.specs.ReadKinds.{read_kind_of};
ghost use Rattle.snb_graph_model.specs.Soundness.{Sound};
ghost use Rattle.snb_read_model.specs.ComplexReads.{IsAnswer};
ghost use Rattle.snb_read_model.specs.Replies.{IsReply};
ghost use Rattle.snb_handlers.specs.Table.{HasAll, IsFirstUnhandled, IsFirstWithout, handlers_of, kinds, handled_kinds};
ghost use Rattle.snb_handlers.specs.Table.{kinds as kinds_of};

use crate::handler::Handler;
use crate::handlers::Handlers;
use snb_base::Text;
use snb_graph::Graph;
use snb_read_model::{
    Answer, CowText, Reply, cow_answer, cow_reply, lend_answer, reply_with_tail, tail_of,
};
use snb_replies::Replies;
use snb_schema::{Query, READ_KINDS, ReadKind};
use std::alloc::{AllocError, Global};

/// Why a handler isn't registered.
#[derive(Clone, Copy)]
pub enum Register {
    /// Its kind has a handler.
    Duplicate,
    /// Memory doesn't suffice.
    Memory,
}

// The handler of a kind.
fn find(items: &[Handler], kind: ReadKind) -> Option<&Handler>
    ensures { MatchOption result
        (¬ Contains (handled_kinds items.now) kind)
        (λ found. (found.now.kind ≡ kind) × Contains (handled_kinds items.now) kind) }
{
    for one in items {
        if one.kind == kind {
            return Some(one);
        }
    }
    None
}

// The first of the kinds without a handler.
fn first_without(table: &Handlers, kinds: &[ReadKind]) -> Option<ReadKind>
    ensures { MatchOption result (AllByRecursion (Contains (kinds_of table.now)) kinds.now)
        (IsFirstWithout kinds.now (kinds_of table.now)) }
{
    match kinds {
        [] => None,
        [kind, kinds @ ..] => {
            if table.has(*kind) {
                first_without(table, kinds)
            } else {
                Some(*kind)
            }
        }
    }
}

impl Handlers {
    /// No handlers. Takes no memory; what its later calls take comes from `alloc`.
    pub fn new(alloc: Global) -> Handlers
        ensures { handlers_of result ≡ [] }
    {
        Handlers {
            alloc,
            items: Vec::new(alloc),
        }
    }

    /// Whether a kind has a handler. Takes no memory.
    pub fn has(&self, kind: ReadKind) -> bool
        ensures { IsTrue result ↔ Contains (kinds self.now) kind }
    {
        match find(&self.items, kind) {
            Some(_) => true,
            None => false,
        }
    }

    /// The first kind without a handler, in the order of `ReadKind`; None exactly where each kind has one. Takes
    /// no memory.
    pub fn missing(&self) -> Option<ReadKind>
        ensures { MatchOption result (HasAll (kinds self.now)) (IsFirstUnhandled (kinds self.now)) }
    {
        first_without(self, &READ_KINDS)
    }

    /// Adds a handler. `Duplicate` says that its kind has one, `Memory` that memory doesn't suffice. After each of
    /// them the handlers are as they were, and the new one is gone.
    pub fn register(&mut self, handler: Handler) -> Result<(), Register>
        ensures ok { OnOk result (handlers_of self.new ≡ handlers_of self.old ++ handler ∷ []) }
        ensures duplicate { (result ≡ Err Register.Duplicate) ↔ Contains (kinds self.old) handler.kind }
        ensures err { OnErr result (handlers_of self.new ≡ handlers_of self.old) }
    {
        if self.has(handler.kind) {
            return Err(Register::Duplicate);
        }
        match self.items.push(handler) {
            Ok(()) => Ok(()),
            Err(_) => Err(Register::Memory),
        }
    }

    /// The answer to a query, by the handler of its kind. An error is that of the handler's closure.
    /// The conditions: the graph is sound, and the kind has a handler.
    pub fn answer(&self, graph: &Graph, query: &Query) -> Result<Answer<Text>, AllocError>
        requires sound { Sound graph.now }
        requires kind { Contains (kinds self.now) (read_kind_of query.now) }
        ensures { IfOk result (IsAnswer graph.now query.now) }
    {
        match find(&self.items, query.kind()) {
            Some(handler) => handler.answer(graph, query),
            None => unreachable!(),
        }
    }

    // The answers to queries, each by the handler of its kind.
    fn answers(&self, graph: &Graph, queries: &[Query]) -> Result<Vec<Answer<Text>>, AllocError>
        requires sound { Sound graph.now }
        requires all { HasAll (kinds self.now) }
        ensures { IfOk result (λ answers. AllZip (IsAnswer graph.now) queries.now answers.items) }
    {
        let mut answers = Vec::new(self.alloc);
        for query in queries {
            answers.push(self.answer(graph, query)?)?;
        }
        Ok(answers)
    }

    /// The reply to a query: its own answer, and then the answers of the short reads that follow it, each by the
    /// handler of its kind. An error is that of a handler's closure, or says that memory doesn't suffice.
    /// The conditions: the graph is sound, and each kind has a handler.
    pub fn reply(&self, graph: &Graph, query: &Query) -> Result<Reply<Text>, AllocError>
        requires sound { Sound graph.now }
        requires all { HasAll (kinds self.now) }
        ensures { IfOk result (IsReply graph.now query.now) }
    {
        let own = self.answer(graph, query)?;
        let follow = tail_of(query, &lend_answer(&own)?).queries(self.alloc)?;
        let tail = self.answers(graph, &follow)?;
        reply_with_tail(self.alloc, own, tail)
    }
}

// A table answers by its handlers, where each kind of read has one.
impl Replies for Handlers {
    ghost ready = { λ table. HasAll (kinds table) };

    fn answer_to<'a>(
        &self,
        _alloc: Global,
        graph: &'a Graph,
        query: &Query,
    ) -> Result<Answer<CowText<'a>>, AllocError> {
        cow_answer(self.answer(graph, query)?)
    }

    fn reply_to<'a>(
        &self,
        _alloc: Global,
        graph: &'a Graph,
        query: &Query,
    ) -> Result<Reply<CowText<'a>>, AllocError> {
        cow_reply(self.reply(graph, query)?)
    }
}
