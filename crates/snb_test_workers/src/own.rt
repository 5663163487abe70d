//! The call in which the dataset and the plan of a folder are asked by the graph's own reads.

ghost use Rattle.snb_test_workers.specs.Wholes.{IsWhole};

use crate::alone::moments_of;
use crate::asked::{checked, first_reply, miscount_of_sevens};
use crate::closed::{Planned, load_closed};
use snb_input_files::Load;
use snb_miscount::Miscount;
use snb_test_script::{Files, Flaw, Given, Lines, first_word, shown};
use snb_validation_check::Tally;
use std::alloc::{AllocError, Global};
use std::sync::Wait;

// The first wrong count.
fn told_miscount(alloc: Global, found: Option<Miscount>) -> Result<String, AllocError> {
    match found {
        Some(
            Miscount {
                event,
                needs,
                found,
            },
        ) => format!(in alloc; "event {event} needs {needs} found {found}"),
        None => String::from_str(alloc, "no wrong count"),
    }
}

// What was found over cases.
fn told_tally(alloc: Global, tally: Result<Tally, Load>) -> Result<String, Flaw> {
    match tally {
        Ok(tally) => {
            if tally.first.is_some() {
                return Ok(String::from_str(alloc, "a reply differs")?);
            }
            let reads = tally.reads;
            Ok(format!(in alloc; "{reads} reads, all right")?)
        }
        Err(Load::Memory) => Err(Flaw::Memory),
        Err(Load::ReadFault) => Err(Flaw::ReadFault),
        Err(Load::Refused { .. }) => Err(Flaw::OtherValue),
    }
}

// What the graph's own reads tell of a dataset and a plan.
fn told_own<R: Wait>(
    rt: &R,
    alloc: Global,
    whole: &Planned,
    moments: &[u64],
) -> Result<String, Flaw>
    requires { IsWhole whole.now.graph whole.now.plan }
{
    let given = Given::new(alloc, moments);
    let miscount = miscount_of_sevens(rt, alloc, &whole.plan, &whole.graph, &given, &given)?;
    let mut answer = Lines::new(alloc);
    let line = told_miscount(alloc, miscount)?;
    answer.add(line.as_str())?;
    let line = told_tally(alloc, checked(alloc, &whole.plan, &whole.graph))?;
    answer.add(line.as_str())?;
    let text = first_reply(alloc, &whole.plan, &whole.graph)?;
    let line = shown(alloc, &text)?;
    answer.add(line.as_str())?;
    Ok(answer.told())
}

/// `own MOMENTS RATIO` or `own MOMENTS RATIO FREQUENCIES`
pub fn own<R: Wait>(rt: &R, alloc: Global, files: &Files, rest: &str) -> Result<String, Flaw> {
    let (moments, terms) = first_word(rest);
    let moments = moments_of(alloc, moments)?;
    let whole = load_closed(alloc, files, terms)?;
    told_own(rt, alloc, &whole, &moments)
}
