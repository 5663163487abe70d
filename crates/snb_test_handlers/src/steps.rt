//! The call in which a checker takes the cases of a file one by one.

ghost use Rattle.snb_graph_model.specs.Soundness.{Sound};

use snb_graph::Graph;
use snb_own_reads::OwnChecker;
use snb_read_model::lend_reply;
use snb_schema::{Kind, Missing};
use snb_test_script::{Flaw, Lines, shown};
use snb_validation::reply_text;
use snb_validation_cases::{CaseFault, read_case};
use snb_validation_check::{Checker, Difference, StepFault};
use std::alloc::{AllocError, Global};

// A node that an insert refers to and that isn't held.
fn told_missing(alloc: Global, missing: Missing) -> Result<String, AllocError> {
    let id = missing.id;
    match missing.kind {
        Kind::Person => format!(in alloc; "missing person {id}"),
        _ => format!(in alloc; "missing another node {id}"),
    }
}

// What taking the case of a line answers.
fn told_step(
    alloc: Global,
    checker: &mut Checker,
    number: u32,
    text: &[u8],
) -> Result<String, Flaw> {
    let case = match read_case(alloc, text) {
        Ok(case) => case,
        Err(CaseFault::Bad) => return Err(Flaw::OtherValue),
        Err(CaseFault::Memory) => return Err(Flaw::Memory),
    };
    match checker.step(&case, number) {
        Ok(()) => Ok(String::from_str(alloc, "taken")?),
        Err(StepFault::Missing { missing }) => Ok(told_missing(alloc, missing)?),
        Err(StepFault::Duplicate) => Ok(String::from_str(alloc, "duplicate")?),
        Err(StepFault::Memory) => Err(Flaw::Memory),
    }
}

// The line of a difference, and both replies.
fn tell_difference(
    alloc: Global,
    difference: &Difference,
    answer: &mut Lines,
) -> Result<(), AllocError> {
    let line = difference.line;
    answer.add(format!(in alloc; "differs line {line}")?.as_str())?;
    let mut expected = Vec::from_slice(alloc, b"expected ")?;
    reply_text(&lend_reply(&difference.expected)?, &mut expected)?;
    answer.add(shown(alloc, &expected)?.as_str())?;
    let mut given = Vec::from_slice(alloc, b"given ")?;
    reply_text(&lend_reply(&difference.given)?, &mut given)?;
    answer.add(shown(alloc, &given)?.as_str())
}

/// Lets a checker of the graph take the cases below the header of a file: tells what each step answers, and then
/// the first difference, or `right`.
pub(crate) fn stepped(alloc: Global, graph: Graph, file: &[u8]) -> Result<String, Flaw>
    requires { Sound graph }
{
    let mut checker = Checker::new(alloc, graph);
    let mut answer = Lines::new(alloc);
    let mut number: u32 = 0;
    for line in file.split(|byte| *byte == b'\n') {
        number = number.saturating_add(1);
        if number > 1 && !line.is_empty() {
            let step = told_step(alloc, &mut checker, number, line)?;
            answer.add(step.as_str())?;
        }
    }
    match checker.first() {
        Some(difference) => tell_difference(alloc, difference, &mut answer)?,
        None => answer.add("right")?,
    }
    Ok(answer.told())
}
