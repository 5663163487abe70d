//! The dataset of a folder, and the plan of its streams and parameter files.

ghost use Rattle.std.specs.Prelude.{◌≡◌, ◌≤◌, IfOk};
ghost use Rattle.snb_base.specs.Reads.{IsShelfRead};
ghost use Rattle.snb_input_files.specs.Loading.{is_read_fault};
ghost use Rattle.snb_input_files.specs.Names.{Allows, IsNameIn};
ghost use Rattle.snb_plan.specs.Closed.{IsClosed};
ghost use Rattle.snb_plan.specs.Plans.{updates_in};
ghost use Rattle.snb_schema.specs.declared.limits.TheConstants.{MAX_ROWS};
ghost use Rattle.snb_schema.specs.LineLanes.{update_count};
ghost use Rattle.snb_schema.specs.QueryLists.{HaveParameters};
ghost use Rattle.snb_schema.specs.StreamLines.{AreOfStreams};
ghost use Rattle.snb_graph_model.specs.Graphs.{HoldsKey};
ghost use Rattle.snb_graph_model.specs.Soundness.{Sound};
ghost use Rattle.snb_tool_outcome.specs.PlanEndings.{IsInputAnswer, IsMadeAnswer};
ghost use Rattle.snb_tool_outcome.specs.Names.{plan_series};

use snb_base::Shelf;
use snb_graph::Graph;
use snb_input_files::{Load, Used, stages_join};
use snb_loader::{load_dataset, load_lanes, load_params, one_dataset, one_lanes, one_params};
use snb_plan::{Plan, plan_is_one};
use snb_ratio::Ratio;
use snb_schema::{Frequencies, Lanes, Lists};
use std::alloc::Global;

/// A dataset, and a plan that is closed over it.
pub struct Input {
    pub graph: Graph,
    pub plan: Plan,
}

impl Drop for Input {
    fn drop(self) {
        let Input { graph: _, plan: _ } = self;
    }
}

impl Input {
    /// The dataset and the plan.
    pub fn into_parts(self) -> (Graph, Plan)
        ensures { (result.0 ≡ self.graph) × (result.1 ≡ self.plan) }
    {
        let Input { graph, plan } = self;
        (graph, plan)
    }
}

// Makes the plan of what was read of a folder, which must be closed over the dataset.
fn input_of(
    alloc: Global,
    graph: Graph,
    lanes: Lanes,
    lists: Lists,
    frequencies: Frequencies,
    ratio: Ratio,
) -> Result<Input, Load>
    requires few { update_count lanes ≤ MAX_ROWS }
    requires streams { AreOfStreams lanes }
    requires parameters { HaveParameters lists frequencies }
    ensures { IsMadeAnswer graph lanes lists frequencies ratio result }
{
    let plan = Plan::make(alloc, lanes, lists, frequencies, ratio)?;
    plan.closed(alloc, &graph)?;
    Ok(Input { graph, plan })
}

/// Reads the tables of a folder, its streams, and the parameter files of the queries with a frequency, and
/// makes the plan of them under the ratio, which must be closed over the dataset. The shelf may be asked for
/// these files (`allowed`).
pub fn load_input<S: Shelf>(
    alloc: Global,
    shelf: &mut S,
    folder: &str,
    ratio: Ratio,
    frequencies: Frequencies,
) -> Result<Input, Load>
    requires allowed { Allows (S.may shelf.old) (IsNameIn (plan_series frequencies) folder.now) }
    ensures answer { IsInputAnswer (S.contents shelf.old) folder.now ratio frequencies result }
    ensures closed { IfOk result (λ i. IsClosed (HoldsKey i.graph) (updates_in i.plan)) }
    ensures sound { IfOk result (λ i. Sound i.graph) }
    ensures read { IsShelfRead (is_read_fault result) S.Shelf shelf.old shelf.new }
{
    stages_join();
    one_dataset();
    one_lanes();
    one_params();
    plan_is_one();
    let mut used = Used { bytes: 0, rows: 0 };
    let graph = load_dataset(alloc, shelf, folder, &mut used)?;
    let lanes = load_lanes(alloc, shelf, folder, &mut used)?;
    let lists = load_params(alloc, shelf, folder, &frequencies, &mut used)?;
    input_of(alloc, graph, lanes, lists, frequencies, ratio)
}
