//! A search by levels: the persons at distance 0, then those at 1, and so on.

ghost use Rattle.std.specs.Prelude.{◌≡◌, ◌<◌, ◌-◌, ℕ, IsSome, OnOk, IfOk, nat_eq, nat_lt, true};
ghost use Rattle.std.specs.HashMap.{IsUnique, get};
ghost use Rattle.std.specs.List.{filter};
ghost use Rattle.snb_graph_model.specs.Around.{is_friend};
ghost use Rattle.snb_read_model.specs.Distance.{IsDistance};
ghost use Rattle.snb_reach.specs.Levels.{HasMet, IsGrowing, IsGrown, StaysMet};
ghost use Rattle.snb_graph_model.specs.Soundness.{HoldsRefs};

use crate::near::Near;
use snb_graph::Graph;
use std::alloc::{AllocError, Global};
use std::collections::HashMap;

// Meets a person at the level, unless it was met before.
fn meet(
    person: u64,
    level: u64,
    met: &mut HashMap<u64, u64>,
    next: &mut Vec<u64>,
) -> Result<(), AllocError>
    ensures { OnOk result
        (HasMet person level (get nat_eq met.old) next.old.items (get nat_eq met.new) next.new.items) }
{
    if met.contains_key(&person) {
        return Ok(());
    }
    met.insert(person, level)?;
    next.push(person)?;
    Ok(())
}

// Meets the friends of a person of the level before.
fn meet_friends(
    graph: &Graph,
    start: u64,
    person: u64,
    level: u64,
    met: &mut HashMap<u64, u64>,
    next: &mut Vec<u64>,
) -> Result<(), AllocError>
    requires held { HoldsRefs graph.now }
    requires above { 0 < level }
    requires reached { IsDistance graph.now start person (level - 1) }
    requires growing { IsGrowing graph.now start level (get nat_eq met.old) next.old.items }
    ensures growing { OnOk result (IsGrowing graph.now start level (get nat_eq met.new) next.new.items) }
    ensures stays { OnOk result (StaysMet (get nat_eq met.old) (get nat_eq met.new)) }
    ensures friends { OnOk result ((q : ℕ) → is_friend graph.now person q ≡ true → IsSome (get nat_eq met.new q)) }
{
    for (friend, _) in graph.friends(person) {
        meet(friend, level, met, next)?;
    }
    Ok(())
}

/// The persons of the next level: those who aren't met and know a person of the last one. They are met
/// then.
pub(crate) fn grow(
    alloc: Global,
    graph: &Graph,
    start: u64,
    level: u64,
    last: &[u64],
    met: &mut HashMap<u64, u64>,
) -> Result<Vec<u64>, AllocError>
    requires held { HoldsRefs graph.now }
    requires above { 0 < level }
    requires grown { IsGrown graph.now start (level - 1) (get nat_eq met.old) last.now }
    ensures { IfOk result (λ next. IsGrown graph.now start level (get nat_eq met.new) next.items) }
{
    let mut next = Vec::new(alloc);
    for person in last {
        meet_friends(graph, start, *person, level, met, &mut next)?;
    }
    Ok(next)
}

/// Those met that aren't the start, in any order.
pub(crate) fn others(alloc: Global, met: &HashMap<u64, u64>) -> Result<Near, AllocError>
    ensures items { IfOk result (λ near. near ≡ filter (λ e. nat_lt 0 e.1) met.now.entries) }
    ensures unique { IsUnique nat_eq met.now }
{
    let mut near = Near::new(alloc);
    for (person, distance) in met {
        if 0 < *distance {
            near.push((*person, *distance))?;
        }
    }
    Ok(near)
}
