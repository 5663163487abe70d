//! The call that tells where the operations of a plan come from.

ghost use Rattle.std.specs.Prelude.{◌≡◌, ◌<◌, length};

use crate::plans::{FOLDER, load_plan, terms_of};
use snb_plan::Plan;
use snb_schema::name_text;
use snb_test_script::{Files, Flaw, List};
use std::alloc::{AllocError, Global};

// How many operations the plan has.
fn count_of(plan: &Plan) -> u32
    ensures { result ≡ length plan.now.operations }
{
    plan.schedule().steps().len() as u32
}

// The file and the line of an update.
fn told_source(alloc: Global, plan: &Plan, op: u32) -> Result<String, AllocError>
    requires { op < length plan.now.operations }
{
    match plan.source(op) {
        Some(source) => {
            let name = name_text(alloc, source.file)?;
            let name = name.as_str();
            let line = source.line;
            format!(in alloc; "{name}:{line}")
        }
        None => String::from_str(alloc, "a read"),
    }
}

// Where each of its operations comes from.
fn told_sources(alloc: Global, plan: &Plan) -> Result<String, Flaw> {
    let mut list = List::new(alloc);
    for op in 0..count_of(plan) {
        let source = told_source(alloc, plan, op)?;
        list.add(source.as_str())?;
    }
    list.told(alloc)
}

/// `sources RATIO` or `sources RATIO FREQUENCIES`
pub fn sources(alloc: Global, files: &Files, rest: &str) -> Result<String, Flaw> {
    let terms = terms_of(rest)?;
    let mut shelf = files.on_shelf(alloc, FOLDER)?;
    let plan = load_plan(alloc, &mut shelf, terms)?;
    told_sources(alloc, &plan)
}
