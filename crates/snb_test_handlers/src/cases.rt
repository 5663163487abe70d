//! The dataset and the cases of a case of the script.

ghost use Rattle.std.specs.Prelude.{IfOk};
ghost use Rattle.snb_graph_model.specs.Soundness.{Sound};
ghost use Rattle.snb_handlers.specs.Table.{HasAll, kinds};

use snb_graph::Graph;
use snb_handlers::Handlers;
use snb_input_files::{Load, Used};
use snb_loader::load_dataset;
use snb_test_script::{Files, Flaw};
use snb_validation_cases::{CaseFault, read_case};
use snb_validation_check::{Checker, StepFault};
use std::alloc::Global;

/// The graph of the dataset in a folder.
pub(crate) fn graph_of(alloc: Global, files: &Files, folder: &str) -> Result<Graph, Flaw>
    ensures { IfOk result Sound }
{
    let mut shelf = files.on_shelf(alloc, "")?;
    let mut used = Used { bytes: 0, rows: 0 };
    match load_dataset(alloc, &mut shelf, folder, &mut used) {
        Ok(graph) => Ok(graph),
        Err(Load::Memory) => Err(Flaw::Memory),
        Err(Load::ReadFault) => Err(Flaw::ReadFault),
        Err(Load::Refused { .. }) => Err(Flaw::Unsound),
    }
}

// Takes the case of a line.
fn take(
    alloc: Global,
    handlers: &Handlers,
    checker: &mut Checker,
    number: u32,
    text: &[u8],
) -> Result<(), Flaw>
    requires { HasAll (kinds handlers.now) }
{
    let case = match read_case(alloc, text) {
        Ok(case) => case,
        Err(CaseFault::Bad) => return Err(Flaw::OtherValue),
        Err(CaseFault::Memory) => return Err(Flaw::Memory),
    };
    match checker.step_via(handlers, &case, number) {
        Ok(()) => Ok(()),
        Err(StepFault::Memory) => Err(Flaw::Memory),
        Err(_) => Err(Flaw::Unsound),
    }
}

/// Checks the cases below the header of a file by these handlers: tells `right`, or the line of the first one whose
/// reply differs.
pub(crate) fn check(
    alloc: Global,
    handlers: &Handlers,
    graph: Graph,
    file: &[u8],
) -> Result<String, Flaw>
    requires all { HasAll (kinds handlers.now) }
    requires sound { Sound graph }
{
    let mut checker = Checker::new(alloc, graph);
    let mut number: u32 = 0;
    for line in file.split(|byte| *byte == b'\n') {
        number = number.saturating_add(1);
        if number > 1 && !line.is_empty() {
            take(alloc, handlers, &mut checker, number, line)?;
        }
    }
    match checker.first() {
        Some(difference) => {
            let line = difference.line;
            Ok(format!(in alloc; "differs line {line}")?)
        }
        None => Ok(String::from_str(alloc, "right")?),
    }
}
