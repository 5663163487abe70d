//! The input.

ghost use Rattle.std.specs.Prelude.{◌≡◌, ◌≤◌, IfOk};
ghost use Rattle.snb_schema.specs.declared.limits.TheConstants.{MAX_TRIAL};
ghost use Rattle.snb_graph_model.specs.Soundness.{Sound};
ghost use Rattle.snb_trial.specs.Trial.{dataset, lanes, lists};

use crate::dataset::trial_graph;
use crate::lanes::trial_lanes;
use crate::lists::trial_lists;
use snb_graph::Graph;
use snb_schema::{Lanes, Lists};
use std::alloc::{AllocError, Global};

/// The dataset, the lanes of updates and the parameters of a formula workload of size n, from 1 to
/// 5000: ten rows, seven updates for each i from 1 to n, and one parameter of query 2 and one of query
/// 13.
///
/// What is true of every size is in `law`: the lanes are those of streams, each query of frequencies
/// that name 2 and 13 has a parameter, and the updates of each plan of the lanes are closed over the
/// dataset.
pub fn trial_input(alloc: Global, n: u32) -> Result<(Graph, Lanes, Lists), AllocError>
    requires some { 1 ≤ n }
    requires few { n ≤ MAX_TRIAL }
    ensures graph { IfOk result (λ input. input.0 ≡ dataset) }
    ensures sound { IfOk result (λ input. Sound input.0) }
    ensures lanes { IfOk result (λ input. input.1 ≡ lanes n) }
    ensures lists { IfOk result (λ input. input.2 ≡ lists n) }
{
    let graph = trial_graph(alloc)?;
    let lanes = trial_lanes(alloc, n)?;
    let lists = trial_lists(alloc, n)?;
    Ok((graph, lanes, lists))
}
