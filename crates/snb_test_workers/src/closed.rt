//! A dataset, and a plan that is closed over it.

ghost use Rattle.std.specs.Prelude.{IfOk};
ghost use Rattle.snb_graph_model.specs.Soundness.{Sound};
ghost use Rattle.snb_test_workers.specs.Wholes.{IsWhole};

use snb_base::MemoryShelf;
use snb_graph::Graph;
use snb_input_files::Used;
use snb_loader::load_dataset;
use snb_plan::{Plan, PlanFault};
use snb_test_book::{FOLDER, flaw_of, load_plan, terms_of};
use snb_test_script::{Files, Flaw};
use std::alloc::Global;

/// The dataset of a folder, and the plan of its streams and parameters.
pub struct Planned {
    /// The dataset.
    pub graph: Graph,
    /// The plan.
    pub plan: Plan,
}

impl Drop for Planned {
    fn drop(self) {
        let Planned { graph: _, plan: _ } = self;
    }
}

// The dataset on a shelf, in the folder.
fn load_graph(alloc: Global, shelf: &mut MemoryShelf) -> Result<Graph, Flaw>
    ensures { IfOk result Sound }
{
    let mut used = Used { bytes: 0, rows: 0 };
    match load_dataset(alloc, shelf, FOLDER, &mut used) {
        Ok(graph) => Ok(graph),
        Err(load) => Err(flaw_of(load)),
    }
}

// The dataset and the plan, where it is closed.
fn if_closed(alloc: Global, graph: Graph, plan: Plan) -> Result<Planned, Flaw>
    requires { Sound graph }
    ensures { IfOk result (λ whole. IsWhole whole.graph whole.plan) }
{
    match plan.closed(alloc, &graph) {
        Ok(()) => Ok(Planned { graph, plan }),
        Err(PlanFault::Refused { .. }) => Err(Flaw::OtherValue),
        Err(PlanFault::Memory) => Err(Flaw::Memory),
    }
}

/// The dataset of the files, which is sound, and the plan of them under the ratio and the frequencies that
/// the text spells, which is closed over it. A folder without both is none for these calls.
pub fn load_closed(alloc: Global, files: &Files, terms: &str) -> Result<Planned, Flaw>
    ensures { IfOk result (λ whole. IsWhole whole.graph whole.plan) }
{
    let terms = terms_of(terms)?;
    let mut shelf = files.on_shelf(alloc, FOLDER)?;
    let graph = load_graph(alloc, &mut shelf)?;
    let plan = load_plan(alloc, &mut shelf, terms)?;
    if_closed(alloc, graph, plan)
}
