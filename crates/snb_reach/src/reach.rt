//! Distances between persons over friendships.

ghost use Rattle.std.specs.Prelude.{ℕ, List, IfOk, nat_eq};
ghost use Rattle.std.specs.HashMap.{get};
ghost use Rattle.snb_schema.specs.declared.row.Row.{Row};
ghost use Rattle.snb_read_model.specs.ComplexReads.{Ic13Answer};
ghost use Rattle.snb_read_model.specs.Distance.{IsLength, IsWithin};
ghost use Rattle.snb_reach.specs.Distances.{AreDistances};
ghost use Rattle.snb_graph_model.specs.Soundness.{HoldsRefs};

use crate::few;
use crate::levels::{grow, others};
use crate::near::{Near, by_id};
use crate::sides::between;
use snb_graph::Graph;
use snb_read_model::{Answer, AnswerRow, Cell, CowText};
use std::alloc::{AllocError, Global};
use std::collections::HashMap;

// Of so many steps a search by lists takes less time than one by a map.
const FEW_STEPS: u32 = 3;

/// The persons who can be reached in at most `steps` steps, each with the distance: the start itself at 0.
/// From a person that isn't held nobody can be reached.
/// The condition: each node that a row of the graph refers to is held.
pub fn distances(
    alloc: Global,
    graph: &Graph,
    start: u64,
    steps: u32,
) -> Result<HashMap<u64, u64>, AllocError>
    requires held { HoldsRefs graph.now }
    ensures { IfOk result (λ met. AreDistances graph.now start steps (get nat_eq met)) }
{
    if steps <= FEW_STEPS {
        return few::distances(alloc, graph, start, steps);
    }
    let mut met = HashMap::new(alloc);
    let Some(_) = graph.person(start) else {
        return Ok(met);
    };
    met.insert(start, 0)?;
    let mut last = Vec::new(alloc);
    last.push(start)?;
    for done in 0..steps {
        last = grow(alloc, graph, start, u64::from(done) + 1, &last, &mut met)?;
    }
    Ok(met)
}

/// Those met within a number of steps, as `distances` has them, without the start, by rising id.
pub fn listed(alloc: Global, met: &HashMap<u64, u64>) -> Result<Near, AllocError>
    ensures { IfOk result
        (λ near. (g : List Row) (start steps : ℕ) → AreDistances g start steps (get nat_eq met.now)
        → IsWithin g start steps near) }
{
    let near = others(alloc, met)?;
    Ok(by_id(alloc, near))
}

/// The persons at distance 1 to `steps` from a person, with their distances, by rising id. Nobody is
/// near a person that isn't held.
/// The condition: each node that a row of the graph refers to is held.
pub fn within(alloc: Global, graph: &Graph, start: u64, steps: u32) -> Result<Near, AllocError>
    requires held { HoldsRefs graph.now }
    ensures { IfOk result (IsWithin graph.now start steps) }
{
    if steps <= FEW_STEPS {
        return few::within(alloc, graph, start, steps);
    }
    let met = distances(alloc, graph, start, steps)?;
    listed(alloc, &met)
}

/// The length in steps of a shortest walk from one person to another, or -1 where there is none, as
/// where one of them isn't held.
/// The condition: each node that a row of the graph refers to is held.
pub fn shortest(alloc: Global, graph: &Graph, from: u64, to: u64) -> Result<i64, AllocError>
    requires held { HoldsRefs graph.now }
    ensures { IfOk result (IsLength graph.now from to) }
{
    let Some(_) = graph.person(from) else {
        return Ok(-1);
    };
    let Some(_) = graph.person(to) else {
        return Ok(-1);
    };
    if from == to {
        return Ok(0);
    }
    between(alloc, graph, from, to)
}

/// Complex read 13 of LDBC's Social Network Benchmark, Interactive workload v1: one row, with the
/// length of a shortest walk from one person to another, or -1 where there is none.
/// The condition: each node that a row of the graph refers to is held.
pub fn ic13(
    alloc: Global,
    graph: &Graph,
    from: u64,
    to: u64,
) -> Result<Answer<CowText<'_>>, AllocError>
    requires held { HoldsRefs graph.now }
    ensures { IfOk result (Ic13Answer graph.now from to) }
{
    let value = shortest(alloc, graph, from, to)?;
    let cells = vec![in alloc; Cell::Number { value }]?;
    let mut answer = Answer::new(alloc);
    answer.push(AnswerRow::from_vec(alloc, cells))?;
    Ok(answer)
}
