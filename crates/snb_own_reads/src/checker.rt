//! Cases that are checked by the graph's own reads.

ghost use Rattle.std.specs.Prelude.{◌≡◌, ◌↔◌, Err, OnErr, OnOk, true};
ghost use Rattle.snb_base.specs.Reads.{IsShelfRead};
ghost use Rattle.snb_schema.specs.declared.refusal.Missing.{Missing as MissingNode};
ghost use Rattle.snb_input_files.specs.Loading.{is_read_fault};
ghost use Rattle.snb_graph_model.specs.Soundness.{Sound};
ghost use Rattle.snb_validation_model.specs.CasesFile.{IsCasesAnswer};
ghost use Rattle.snb_validation_model.specs.Steps.{Checked, HasText, CaseRepeats, IsUnmet, Steps};

use snb_base::Shelf;
use snb_graph::Graph;
use snb_input_files::Load;
use snb_read_replies::OwnReads;
use snb_validation_cases::Case;
use snb_validation_check::{Checker, StepFault, Tally, check_cases_via};
use std::alloc::Global;

/// A checker whose reads are answered by the graph's own.
pub trait OwnChecker {
    /// Its graph, and the first difference.
    ghost checked: { Self → Checked };

    /// Takes the case of this line, as `step_via` of `Checker` does by the graph's own reads.
    ///
    /// `Missing` names the first node that the insert refers to and that the graph doesn't hold.
    /// `Duplicate` says that all of these are held, and so is a key that the insert takes. `Memory` says
    /// that memory doesn't suffice. After each of them the checker is as it was.
    ///
    /// The condition: some line of an update stream is the insert's.
    fn step(&mut self, case: &Case, number: u32) -> Result<(), StepFault>
        requires text { HasText case.now }
        ensures ok { OnOk result (Steps (checked self.old) case.now number (checked self.new)) }
        ensures missing { (missing : MissingNode) → (result ≡ Err (StepFault.Missing missing))
            ↔ IsUnmet (checked self.old).graph case.now missing }
        ensures duplicate { (result ≡ Err StepFault.Duplicate) ↔ CaseRepeats (checked self.old).graph case.now }
        ensures err { OnErr result (self.new ≡ self.old) };
}

impl OwnChecker for Checker {
    ghost checked = { λ c. c };

    fn step(&mut self, case: &Case, number: u32) -> Result<(), StepFault> {
        self.step_via(&OwnReads, case, number)
    }
}

/// Checks the cases of a file against a graph, as `check_cases_via` of `snb_validation_check` does by the graph's own
/// reads.
///
/// The conditions: the graph is sound (`sound`), and the shelf may be asked for the path (`allowed`).
pub fn check_cases<S: Shelf>(
    alloc: Global,
    shelf: &mut S,
    path: &str,
    graph: Graph,
) -> Result<Tally, Load>
    requires sound { Sound graph }
    requires allowed { S.may shelf.old path.now ≡ true }
    ensures answer { IsCasesAnswer (S.contents shelf.old) path.now graph result }
    ensures read { IsShelfRead (is_read_fault result) S.Shelf shelf.old shelf.new }
{
    check_cases_via(alloc, shelf, path, graph, &OwnReads)
}
