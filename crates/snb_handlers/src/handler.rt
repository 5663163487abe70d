//! What answers the reads of one kind.

ghost use Rattle.std.specs.Prelude.{◌≡◌, IfOk};
ghost use Rattle.std.specs.Result.{ForOk};
ghost use Rattle.snb_schema.specs.ReadKinds.{read_kind_of};
ghost use Rattle.snb_graph_model.specs.Soundness.{Sound};
ghost use Rattle.snb_read_model.specs.ComplexReads.{IsAnswer};

use snb_base::Text;
use snb_graph::Graph;
use snb_read_laws::{one_reply, some_reply};
use snb_read_model::Answer;
use snb_schema::{Query, ReadKind};
use std::alloc::AllocError;

/// A closure that answers a query on a graph. Its answer has texts of its own: no closure that is kept can lend
/// those of the graph.
pub type Call = Box<dyn Fn(&Graph, &Query) -> Result<Answer<Text>, AllocError>>;

/// What answers the reads of one kind: a closure, and what is known of it. It may be called on every sound graph
/// and every query of the kind, and then an answer that it gives is the definition's.
pub struct Handler {
    /// The kind of the reads.
    pub kind: ReadKind,
    call: Call,
    ghost callable: { (g : _) (q : _) → Sound g.now → read_kind_of q.now ≡ kind → pre call g q },
    // A fact that is kept beside a box has one proof at most. It is an answer's all the same, since there is one.
    ghost answers: { (g : _) (q : _) (r : _) → Sound g.now → read_kind_of q.now ≡ kind → post call g q r
        → ForOk r (λ a. ∥ IsAnswer g.now q.now a ∥₁) },
}

impl Drop for Handler {
    fn drop(self) {
        let Handler { kind: _, call: _ } = self;
    }
}

impl Handler {
    /// The handler of this kind that asks this closure. Takes no memory.
    ///
    /// The conditions: on each sound graph the closure may be called with each query of the kind, and an answer
    /// that it gives is the definition's. Of an error of it nothing is asked: it is passed on.
    pub fn new(kind: ReadKind, call: Call) -> Handler
        requires callable { (g : _) (q : _) → Sound g.now → read_kind_of q.now ≡ kind → pre call g q }
        requires answers { (g : _) (q : _) (r : _) → Sound g.now → read_kind_of q.now ≡ kind → post call g q r
            → IfOk r (IsAnswer g.now q.now) }
        ensures { result.kind ≡ kind }
    {
        Handler { kind, call }
    }

    // What the closure gives. Of its being the answer no more is known than that it holds.
    fn called(&self, graph: &Graph, query: &Query) -> Result<Answer<Text>, AllocError>
        requires sound { Sound graph.now }
        requires kind { read_kind_of query.now ≡ self.now.kind }
        ensures { IfOk result (λ a. ∥ IsAnswer graph.now query.now a ∥₁) }
    {
        (self.call)(graph, query)
    }

    /// The answer to a query of its kind. An error is the closure's.
    /// The conditions: the graph is sound, and the query is of the handler's kind.
    pub fn answer(&self, graph: &Graph, query: &Query) -> Result<Answer<Text>, AllocError>
        requires sound { Sound graph.now }
        requires kind { read_kind_of query.now ≡ self.now.kind }
        ensures { IfOk result (IsAnswer graph.now query.now) }
    {
        graph.known();
        one_reply();
        some_reply();
        self.called(graph, query)
    }
}
