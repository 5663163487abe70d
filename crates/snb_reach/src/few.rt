//! A search of few steps, by lists: what each step adds is sorted, so all persons met are gone over in each step.

ghost use Rattle.std.specs.Prelude.{◌≡◌, ◌<◌, ◌-◌, ℕ, IfOk, OnOk, nat_eq, true};
ghost use Rattle.std.specs.HashMap.{get};
ghost use Rattle.std.specs.List.{All, Contains};
ghost use Rattle.snb_graph_model.specs.Around.{is_friend};
ghost use Rattle.snb_graph_model.specs.Soundness.{HoldsRefs};
ghost use Rattle.snb_read_model.specs.Distance.{IsPerson, IsWithin, FriendPath};
ghost use Rattle.snb_reach.specs.Distances.{AreDistances};
ghost use Rattle.snb_reach.specs.Few.{AreMet, AreNext, AreReached};

use crate::ids::{add, order};
use crate::leveled::{apart, leveled, mapped};
use crate::near::Near;
use snb_graph::Graph;
use std::alloc::{AllocError, Global};
use std::collections::HashMap;

// Adds the friends of a person of the level before.
fn add_friends(
    graph: &Graph,
    start: u64,
    person: u64,
    level: u64,
    noted: &mut Vec<u64>,
    ids: &mut Vec<u64>,
) -> Result<(), AllocError>
    requires held { HoldsRefs graph.now }
    requires above { 0 < level }
    requires reached { FriendPath graph.now start person (level - 1) }
    requires noted { All (Contains ids.old.items) noted.old.items }
    requires ids { AreReached graph.now start level ids.old.items }
    ensures noted { OnOk result (All (Contains ids.new.items) noted.new.items) }
    ensures ids { OnOk result (AreReached graph.now start level ids.new.items) }
    ensures stays { OnOk result ((q : ℕ) → Contains ids.old.items q → Contains ids.new.items q) }
    ensures friends { OnOk result
        ((q : ℕ) → is_friend graph.now person q ≡ true → Contains ids.new.items q) }
{
    for (friend, _) in graph.friends(person) {
        add(friend, noted, ids)?;
    }
    Ok(())
}

// Adds a person who is met, and their friends where the person is of the level before.
fn visit(
    graph: &Graph,
    start: u64,
    one: (u64, u64),
    level: u64,
    noted: &mut Vec<u64>,
    ids: &mut Vec<u64>,
) -> Result<(), AllocError>
    requires held { HoldsRefs graph.now }
    requires below { one.1 < level }
    requires reached { FriendPath graph.now start one.0 one.1 }
    requires noted { All (Contains ids.old.items) noted.old.items }
    requires ids { AreReached graph.now start level ids.old.items }
    ensures noted { OnOk result (All (Contains ids.new.items) noted.new.items) }
    ensures ids { OnOk result (AreReached graph.now start level ids.new.items) }
    ensures stays { OnOk result ((q : ℕ) → Contains ids.old.items q → Contains ids.new.items q) }
    ensures own { OnOk result (Contains ids.new.items one.0) }
    ensures friends { OnOk result
        (one.1 ≡ level - 1 → (q : ℕ) → is_friend graph.now one.0 q ≡ true → Contains ids.new.items q) }
{
    add(one.0, noted, ids)?;
    if one.1 < level - 1 {
        return Ok(());
    }
    add_friends(graph, start, one.0, level, noted, ids)?;
    Ok(())
}

// How many places there are to note persons at, in a step from so many.
fn places(met: usize) -> usize {
    (met.min(1024) * 64).next_power_of_two()
}

// Those met and the friends of the last of them, in any order; some of them stand there more than once.
fn near_ids(
    alloc: Global,
    graph: &Graph,
    start: u64,
    level: u64,
    met: &[(u64, u64)],
) -> Result<Vec<u64>, AllocError>
    requires held { HoldsRefs graph.now }
    requires from { IsPerson graph.now start }
    requires above { 0 < level }
    requires met { AreMet graph.now start (level - 1) met.now }
    ensures { IfOk result (λ ids. AreNext graph.now start level met.now ids.items) }
{
    let mut ids = Vec::new(alloc);
    ids.push(start)?;
    let mut noted = vec![in alloc; start; places(met.len())]?;
    for one in met {
        visit(graph, start, *one, level, &mut noted, &mut ids)?;
    }
    Ok(ids)
}

// Those met when a step more is taken.
fn grown(
    alloc: Global,
    graph: &Graph,
    start: u64,
    level: u64,
    met: &[(u64, u64)],
) -> Result<Vec<(u64, u64)>, AllocError>
    requires held { HoldsRefs graph.now }
    requires from { IsPerson graph.now start }
    requires above { 0 < level }
    requires met { AreMet graph.now start (level - 1) met.now }
    ensures { IfOk result (λ all. AreMet graph.now start level all.items) }
{
    let mut ids = near_ids(alloc, graph, start, level, met)?;
    order(&mut ids);
    let all = leveled(alloc, level, met, ids.as_slice())?;
    Ok(all)
}

// The persons who can be reached in at most `steps` steps, each with the distance, by rising id: the start
// itself at 0.
fn reached(
    alloc: Global,
    graph: &Graph,
    start: u64,
    steps: u32,
) -> Result<Vec<(u64, u64)>, AllocError>
    requires held { HoldsRefs graph.now }
    requires from { IsPerson graph.now start }
    ensures { IfOk result (λ met. AreMet graph.now start steps met.items) }
{
    let mut met = Vec::new(alloc);
    met.push((start, 0))?;
    for done in 0..steps {
        met = grown(alloc, graph, start, u64::from(done) + 1, met.as_slice())?;
    }
    Ok(met)
}

/// `distances` of few steps.
/// The condition: each node that a row of the graph refers to is held.
pub(crate) fn distances(
    alloc: Global,
    graph: &Graph,
    start: u64,
    steps: u32,
) -> Result<HashMap<u64, u64>, AllocError>
    requires held { HoldsRefs graph.now }
    ensures { IfOk result (λ met. AreDistances graph.now start steps (get nat_eq met)) }
{
    let Some(_) = graph.person(start) else {
        return Ok(HashMap::new(alloc));
    };
    if steps == 0 {
        let mut met = HashMap::new(alloc);
        met.insert(start, 0)?;
        return Ok(met);
    }
    let near = reached(alloc, graph, start, steps - 1)?;
    let level = u64::from(steps);
    let ids = near_ids(alloc, graph, start, level, near.as_slice())?;
    let met = mapped(alloc, level, near.as_slice(), ids.as_slice())?;
    Ok(met)
}

/// `within` of few steps.
/// The condition: each node that a row of the graph refers to is held.
pub(crate) fn within(
    alloc: Global,
    graph: &Graph,
    start: u64,
    steps: u32,
) -> Result<Near, AllocError>
    requires held { HoldsRefs graph.now }
    ensures { IfOk result (IsWithin graph.now start steps) }
{
    let Some(_) = graph.person(start) else {
        return Ok(Near::new(alloc));
    };
    let met = reached(alloc, graph, start, steps)?;
    Ok(Near::from_vec(alloc, apart(met)))
}
