//! The call that plans what the streams and the parameter files say.

ghost use Rattle.std.specs.Prelude.{◌≤◌};
ghost use Rattle.snb_schema.specs.declared.limits.TheConstants.{MAX_BYTES, MAX_ROWS};
ghost use Rattle.snb_schema.specs.LineLanes.{update_count};
ghost use Rattle.snb_schema.specs.QueryLists.{HaveParameters};
ghost use Rattle.snb_schema.specs.StreamLines.{AreOfStreams};

use crate::state::State;
use snb_base::MemoryShelf;
use snb_history::Schedule;
use snb_input_files::{Load, Used};
use snb_loader::{load_lanes, load_params};
use snb_plan::{Plan, PlanFault};
use snb_ratio::Ratio;
use snb_schema::{Frequencies, Lanes, Lists};
use snb_test_script::{Files, Flaw, first_word};
use std::alloc::Global;

/// The folder in which the files stand.
pub const FOLDER: &str = "d";

/// By what a folder is planned.
#[derive(Clone, Copy)]
pub struct Terms {
    ratio: Ratio,
    frequencies: Frequencies,
}

/// The ratio and the frequencies that the text spells; no query has a frequency where it spells none.
pub fn terms_of(text: &str) -> Result<Terms, Flaw> {
    let (ratio, frequencies) = first_word(text);
    let ratio = Ratio::read(ratio.as_bytes()).ok_or(Flaw::NoRatio)?;
    let frequencies = if frequencies.is_empty() {
        Frequencies::none()
    } else {
        Frequencies::read(frequencies.as_bytes()).ok_or(Flaw::NoFrequencies)?
    };
    Ok(Terms { ratio, frequencies })
}

/// Why there is no plan.
pub fn flaw_of(load: Load) -> Flaw {
    match load {
        Load::Refused { .. } => Flaw::OtherValue,
        Load::ReadFault => Flaw::ReadFault,
        Load::Memory => Flaw::Memory,
    }
}

// The plan of these lanes and lists.
fn make(alloc: Global, lanes: Lanes, lists: Lists, terms: Terms) -> Result<Plan, Flaw>
    requires few { update_count lanes ≤ MAX_ROWS }
    requires streams { AreOfStreams lanes }
    requires parameters { HaveParameters lists terms.frequencies }
{
    match Plan::make(alloc, lanes, lists, terms.frequencies, terms.ratio) {
        Ok(plan) => Ok(plan),
        Err(PlanFault::Refused { .. }) => Err(Flaw::OtherValue),
        Err(PlanFault::Memory) => Err(Flaw::Memory),
    }
}

// The plan of these lanes and of the parameter files.
fn plan_of(
    alloc: Global,
    shelf: &mut MemoryShelf,
    lanes: Lanes,
    used: &mut Used,
    terms: Terms,
) -> Result<Plan, Flaw>
    requires bytes { used.old.bytes ≤ MAX_BYTES }
    requires rows { used.old.rows ≤ MAX_ROWS }
    requires few { update_count lanes ≤ MAX_ROWS }
    requires streams { AreOfStreams lanes }
{
    match load_params(alloc, shelf, FOLDER, &terms.frequencies, used) {
        Ok(lists) => make(alloc, lanes, lists, terms),
        Err(load) => Err(flaw_of(load)),
    }
}

/// The plan of the streams and the parameter files on a shelf, in the folder.
pub fn load_plan(alloc: Global, shelf: &mut MemoryShelf, terms: Terms) -> Result<Plan, Flaw> {
    let mut used = Used { bytes: 0, rows: 0 };
    match load_lanes(alloc, shelf, FOLDER, &mut used) {
        Ok(lanes) => plan_of(alloc, shelf, lanes, &mut used, terms),
        Err(load) => Err(flaw_of(load)),
    }
}

// The schedule of what the files say, under the terms that the text spells.
fn schedule_of(alloc: Global, files: &Files, rest: &str) -> Result<Schedule, Flaw> {
    let terms = terms_of(rest)?;
    let mut shelf = files.on_shelf(alloc, FOLDER)?;
    let plan = load_plan(alloc, &mut shelf, terms)?;
    Ok(plan.schedule().try_copy()?)
}

/// `schedule RATIO` or `schedule RATIO FREQUENCIES`
pub fn plan(alloc: Global, state: &mut State, files: &Files, rest: &str) -> Result<String, Flaw> {
    let schedule = schedule_of(alloc, files, rest)?;
    let count = schedule.steps().len();
    state.schedule = Some(schedule);
    Ok(format!(in alloc; "{count} operations")?)
}
