//! The cases of a file, checked against a graph.

ghost use Rattle.std.specs.Prelude.{◌≡◌, [], ◌∷◌, None, true};
ghost use Rattle.snb_base.specs.Reads.{IsShelfRead};
ghost use Rattle.snb_input_files.specs.Loading.{is_read_fault};
ghost use Rattle.snb_graph_model.specs.Soundness.{Sound};
ghost use Rattle.snb_validation_check.specs.CaseTakers.{AreCaseTakers, CasesAreLawful};
ghost use Rattle.snb_validation_model.specs.CasesFile.{IsCasesAnswer};
ghost use Rattle.snb_validation_model.specs.Checks.{count_reads};

use crate::checker::{Checker, StepFault};
use snb_base::Shelf;
use snb_graph::Graph;
use snb_graph_model::graphs_are_their_rows;
use snb_input_files::{FileSink, Found, Load, Used, load_file};
use snb_input_lines::Sink;
use snb_replies::Replies;
use snb_schema::{Fault, FileId, FileKind, Refusal};
use snb_validation_cases::{Case, CaseAt, CaseLines, one_case_line};
use snb_validation_model::Tally;
use std::alloc::{AllocError, Global};
use std::marker::Model;

// A checker that takes the cases of a file, whoever replies to their reads, and how many reads it took.
pub(crate) struct CaseFileSink<'h, A: Replies> {
    alloc: Global,
    answers: &'h A,
    checker: Checker,
    reads: u64,
}

impl<'h, A: Replies> Drop for CaseFileSink<'h, A> {
    fn drop(self) {
        let CaseFileSink {
            alloc: _,
            answers: _,
            checker: _,
            reads: _,
        } = self;
    }
}

impl<'h, A: Replies> Model for CaseFileSink<'h, A> {
    ghost use Rattle.snb_validation_check.specs.CaseTakers.{Counted};

    ghost Value = { Counted };

    ghost view = { λ t. record { checked = t.checker; reads = t.reads } };

    ghost invariant = { λ t. A.ready t.answers.now };
}

// How many reads a case is.
fn reads_in(item: &CaseAt) -> u64
    ensures { result ≡ count_reads (item.now ∷ []) }
{
    match &item.case {
        Case::Insert { line: _ } => 0,
        Case::Ask { query: _, reply: _ } => 1,
    }
}

impl<'h, A: Replies> CaseFileSink<'h, A> {
    // It has taken no case, and begins with this graph. Takes no memory.
    fn new(alloc: Global, answers: &'h A, graph: Graph) -> CaseFileSink<'h, A>
        requires ready { A.ready answers.now }
        requires sound { Sound graph }
        ensures { result ≡ record { checked = record { graph = graph; first = None }; reads = 0 } }
    {
        CaseFileSink {
            alloc,
            answers,
            checker: Checker::new(alloc, graph),
            reads: 0,
        }
    }

    // What was found. Takes no memory.
    fn into_tally(self) -> Tally
        ensures { result ≡ record { reads = self.entry.reads; first = self.entry.checked.first } }
    {
        let CaseFileSink {
            alloc: _,
            answers: _,
            checker,
            reads,
        } = self;
        Tally {
            reads,
            first: checker.into_first(),
        }
    }
}

impl<'h, A: Replies> Sink<CaseAt> for CaseFileSink<'h, A> {
    ghost use Rattle.std.specs.Prelude.{refl};
    ghost use Rattle.snb_validation_check.specs.CaseTakers.{case_sink};

    ghost meaning = { case_sink };

    fn put(&mut self, file: FileId, item: CaseAt) -> Result<(), Fault> {
        // A file has at most `MAX_BYTES` bytes, and so never as many reads as don't fit 64 bits.
        let Some(reads) = self.reads.checked_add(reads_in(&item)) else {
            return Err(Fault::Memory);
        };
        let line = item.line;
        match self.checker.step_via(self.answers, &item.case, line) {
            Ok(()) => {}
            Err(StepFault::Missing { missing }) => {
                return Err(Fault::Bad {
                    refusal: Refusal::Unmet {
                        file,
                        line,
                        missing,
                    },
                });
            }
            Err(StepFault::Duplicate) => {
                return Err(Fault::Bad {
                    refusal: Refusal::Duplicate { file, line },
                });
            }
            Err(StepFault::Memory) => return Err(Fault::Memory),
        }
        self.checker.known();
        self.reads = reads;
        Ok(())
    }

    fn at_end(&self, _file: FileId) -> Option<Refusal> {
        None
    }

    fn next_file(&mut self) -> Result<(), AllocError> {
        Ok(())
    }

    ghost same_self = { λ _. refl };
}

impl<'h, A: Replies> FileSink<CaseLines> for CaseFileSink<'h, A> {
    ghost use Rattle.snb_validation_check.specs.CaseTakers.{case_stage};

    ghost stage = { case_stage };

    fn grammar(&self, _file: FileId) -> CaseLines {
        CaseLines::new(self.alloc)
    }

    fn most(&self) -> Option<u64> {
        None
    }
}

// The sink is one of files of cases. A line says one case at most, and is refused in one way at most.
pub(crate) fn cases_are_lawful()
    ensures lawful { CasesAreLawful }
    ensures right { AreCaseTakers }
{
    one_case_line();
    graphs_are_their_rows();
}

/// Checks the cases of a file against a graph, by what answers reads: each reply that a case has against the one on
/// the graph with the inserts of the cases before it. The file is looked up by its path, is read in
/// pieces, and may have any number of lines and `MAX_BYTES` bytes.
///
/// `Refused` is the first thing wrong with the file: it isn't held (`Absent`); else the first of its
/// lines that is refused, as of any file, or because its insert refers to a node that isn't held
/// (`Unmet`), or else takes a key that is held (`Duplicate`); else it has no header (`NoHeader`). The
/// other errors are a read that failed and want of memory, as which an error of what answers counts too. The graph is
/// gone after the call.
///
/// The conditions: what answers reads is ready (`ready`), as a table is in which each kind of read has a handler; the
/// graph is sound (`sound`); and the shelf may be asked for the path (`allowed`).
pub fn check_cases_via<S: Shelf, A: Replies>(
    alloc: Global,
    shelf: &mut S,
    path: &str,
    graph: Graph,
    answers: &A,
) -> Result<Tally, Load>
    requires ready { A.ready answers.now }
    requires sound { Sound graph }
    requires allowed { S.may shelf.old path.now ≡ true }
    ensures answer { IsCasesAnswer (S.contents shelf.old) path.now graph result }
    ensures read { IsShelfRead (is_read_fault result) S.Shelf shelf.old shelf.new }
{
    cases_are_lawful();
    graph.known();
    let file = FileId {
        kind: FileKind::Cases,
        part: 0,
    };
    let used = Used { bytes: 0, rows: 0 };
    let file_sink = CaseFileSink::new(alloc, answers, graph);
    match load_file::<S, CaseLines, CaseFileSink<'_, A>>(
        alloc, shelf, path, file, used, file_sink,
    ) {
        Ok(Found::Whole { file_sink, used: _ }) => Ok(file_sink.into_tally()),
        Ok(Found::Absent { file_sink: _ }) => Err(Load::Refused {
            refusal: Refusal::Absent { file },
        }),
        Err(load) => Err(load),
    }
}
