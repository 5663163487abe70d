//! A graph that takes cases one by one.

ghost use Rattle.std.specs.Prelude.{◌≡◌, ◌↔◌, Err, IfOk, None, OnOk, OnErr};
ghost use Rattle.std.specs.Option.{option_copied};
ghost use Rattle.snb_schema.specs.declared.refusal.Missing.{Missing as MissingNode};
ghost use Rattle.snb_schema.specs.Inserts.{rows_of};
ghost use Rattle.snb_schema.specs.References.{refs_of};
ghost use Rattle.snb_graph_model.specs.Graphs.{HasGained};
ghost use Rattle.snb_graph_model.specs.Soundness.{Sound};
ghost use Rattle.snb_inserts.specs.Applying.{HasLine, IsDuplicate, IsFirstMissing};
ghost use Rattle.snb_validation_model.specs.Steps.{HasCompared, HasText, CaseRepeats, IsUnmet, Steps};

use snb_base::Text;
use snb_graph::Graph;
use snb_inserts::{Applied, apply};
use snb_read_model::{Reply, copy_reply};
use snb_read_same::same_reply;
use snb_replies::Replies;
use snb_schema::{Missing, Op, Query};
use snb_validation_cases::Case;
use snb_validation_model::Difference;
use std::alloc::{AllocError, Global};
use std::marker::Model;

/// Why a case isn't taken.
#[derive(Clone, Copy)]
pub enum StepFault {
    /// The first node that the insert refers to and that the graph doesn't hold.
    Missing { missing: Missing },
    /// All of these are held, and so is a key that the insert takes.
    Duplicate,
    /// Memory doesn't suffice.
    Memory,
}

/// A graph that takes the inserts of cases, and the first case whose reply differs from the graph's. A
/// contract sees its graph, which is sound, and that difference.
pub struct Checker {
    alloc: Global,
    graph: Graph,
    first: Option<Difference>,
}

impl Drop for Checker {
    fn drop(self) {
        let Checker {
            alloc: _,
            graph: _,
            first: _,
        } = self;
    }
}

impl Model for Checker {
    ghost use Rattle.snb_graph_model.specs.Soundness.{Sound};
    ghost use Rattle.snb_validation_model.specs.Steps.{Checked};

    ghost Value = { Checked };

    ghost view = { λ c. record { graph = c.graph; first = c.first } };

    ghost invariant = { λ c. Sound c.graph };
}

// What is kept of a read on the graph, where nothing is kept yet.
fn compared<A: Replies>(
    alloc: Global,
    answers: &A,
    graph: &Graph,
    line: u32,
    query: &Query,
    due: &Reply<Text>,
) -> Result<Option<Difference>, AllocError>
    requires ready { A.ready answers.now }
    requires sound { Sound graph.now }
    ensures { IfOk result (HasCompared graph.now line query.now due.now None) }
{
    let given = answers.reply_to(alloc, graph, query)?;
    if same_reply(&given, due) {
        return Ok(None);
    }
    Ok(Some(Difference {
        line,
        expected: due.try_copy()?,
        given: copy_reply(&given)?,
    }))
}

impl Checker {
    /// A checker of this graph that has taken no case. Takes no memory; what its later calls take comes
    /// from `alloc`.
    /// The condition: the graph is sound.
    pub fn new(alloc: Global, graph: Graph) -> Checker
        requires { Sound graph }
        ensures { result ≡ record { graph = graph; first = None } }
    {
        Checker {
            alloc,
            graph,
            first: None,
        }
    }

    /// Its graph is sound. Takes no memory.
    pub fn known(&self)
        ensures { Sound self.now.graph }
    {
        let _ = &self.graph;
    }

    // Takes a read.
    fn ask<A: Replies>(
        &mut self,
        answers: &A,
        query: &Query,
        due: &Reply<Text>,
        number: u32,
    ) -> Result<(), AllocError>
        requires ready { A.ready answers.now }
        ensures graph { self.new.graph ≡ self.old.graph }
        ensures ok { OnOk result (HasCompared self.old.graph number query.now due.now self.old.first self.new.first) }
        ensures err { OnErr result (self.new ≡ self.old) }
    {
        if self.first.is_none() {
            self.first = compared(self.alloc, answers, &self.graph, number, query, due)?;
        }
        Ok(())
    }

    // Takes an insert.
    fn insert(&mut self, op: &Op) -> Result<(), Applied>
        requires line { HasLine op.now }
        ensures ok { OnOk result (HasGained self.old.graph (rows_of op.now) self.new.graph) }
        ensures kept { self.new.first ≡ self.old.first }
        ensures missing { (missing : MissingNode) → (result ≡ Err (Applied.Missing missing))
            ↔ IsFirstMissing self.old.graph (refs_of op.now) missing }
        ensures duplicate { (result ≡ Err Applied.Duplicate) ↔ IsDuplicate self.old.graph op.now }
        ensures err { OnErr result (self.new ≡ self.old) }
    {
        apply(self.alloc, &mut self.graph, op)
    }

    /// Takes the case of this line, by what answers reads. The rows of an insert go into the graph, also after a
    /// difference. A read leaves the graph; where nothing is kept yet and its reply on the graph isn't the one that
    /// the case has, the line and both replies are kept.
    ///
    /// `Missing` names the first node that the insert refers to and that the graph doesn't hold.
    /// `Duplicate` says that all of these are held, and so is a key that the insert takes. `Memory` says
    /// that memory doesn't suffice, or is an error of what answers. After each of them the checker is as it was.
    ///
    /// The conditions: what answers reads is ready, as a table is in which each kind of read has a handler, and some
    /// line of an update stream is the insert's.
    pub fn step_via<A: Replies>(
        &mut self,
        answers: &A,
        case: &Case,
        number: u32,
    ) -> Result<(), StepFault>
        requires ready { A.ready answers.now }
        requires text { HasText case.now }
        ensures ok { OnOk result (Steps self.old case.now number self.new) }
        ensures missing { (missing : MissingNode) → (result ≡ Err (StepFault.Missing missing))
            ↔ IsUnmet self.old.graph case.now missing }
        ensures duplicate { (result ≡ Err StepFault.Duplicate) ↔ CaseRepeats self.old.graph case.now }
        ensures err { OnErr result (self.new ≡ self.old) }
    {
        match case {
            Case::Insert { line } => match self.insert(&line.op) {
                Ok(()) => Ok(()),
                Err(Applied::Missing { missing }) => Err(StepFault::Missing { missing }),
                Err(Applied::Duplicate) => Err(StepFault::Duplicate),
                Err(Applied::Memory) => Err(StepFault::Memory),
            },
            Case::Ask { query, reply } => match self.ask(answers, query, reply, number) {
                Ok(()) => Ok(()),
                Err(_) => Err(StepFault::Memory),
            },
        }
    }

    /// The first case whose reply differs from the graph's, if there is one. Takes no memory.
    pub fn first(&self) -> Option<&Difference>
        ensures { option_copied result ≡ self.now.first }
    {
        self.first.as_ref()
    }

    /// The first case whose reply differs from the graph's, if there is one. Takes no memory.
    pub fn into_first(self) -> Option<Difference>
        ensures { result ≡ self.first }
    {
        let Checker {
            alloc: _,
            graph: _,
            first,
        } = self;
        first
    }
}
