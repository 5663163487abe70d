//! A search from both ends of a walk: those met from the one are told from those met from the other, until a
//! step meets somebody who was met from the other end.

ghost use Rattle.std.specs.Prelude.{◌≡◌, ◌≢◌, ◌⊎◌, ◌∷◌, ◌+◌, ◌-◌, ◌<◌, [], MatchBool, MatchOption, OnOk, IfOk, IfSome, ℕ, length, nat_eq, not, vec_len};
ghost use Rattle.std.specs.HashMap.{get, hash_map_len};
ghost use Rattle.snb_read_model.specs.Distance.{IsLength, IsPerson, FriendPath};
ghost use Rattle.snb_reach.specs.Sides.{HasGrown, HasMarked, HasMetFriends, IsMeeting, IsSide};
ghost use Rattle.snb_graph_model.specs.Soundness.{HoldsRefs};

use snb_graph::Graph;
use std::alloc::{AllocError, Global};
use std::collections::HashMap;
use std::collections::hash_map::Entry;
use std::mem::swap;

// Meets a person for the next level, unless they were met from the same end before. Whether they were met
// from the other.
fn meet(
    person: u64,
    mark: bool,
    met: &mut HashMap<u64, bool>,
    next: &mut Vec<u64>,
) -> Result<bool, AllocError>
    ensures met { IfOk result
        (λ other. HasMarked person mark (get nat_eq met.old) next.old.items other (get nat_eq met.new) next.new.items) }
    ensures len { OnOk result
        (hash_map_len met.new + length next.old.items ≡ hash_map_len met.old + length next.new.items) }
{
    match met.entry(person)? {
        Entry::Occupied(entry) => Ok(*entry.get() != mark),
        Entry::Vacant(entry) => {
            entry.insert(mark);
            next.push(person)?;
            Ok(false)
        }
    }
}

// Meets the friends of a person of the level before. Whether one of them was met from the other end; then
// not all are met.
fn meet_friends(
    graph: &Graph,
    start: u64,
    mark: bool,
    person: u64,
    level: u64,
    met: &mut HashMap<u64, bool>,
    next: &mut Vec<u64>,
) -> Result<bool, AllocError>
    requires held { HoldsRefs graph.now }
    requires above { 0 < level }
    requires reached { FriendPath graph.now start person (level - 1) }
    requires side { IsSide graph.now start mark level level (get nat_eq met.old) next.old.items }
    ensures met { IfOk result (λ other. MatchBool other (IsMeeting graph.now start mark level (get nat_eq met.old))
        (HasMetFriends graph.now start mark person level (get nat_eq met.old) (get nat_eq met.new) next.new.items)) }
    ensures len { OnOk result
        (hash_map_len met.new + length next.old.items ≡ hash_map_len met.old + length next.new.items) }
{
    for (friend, _) in graph.friends(person) {
        if meet(friend, mark, met, next)? {
            return Ok(true);
        }
    }
    Ok(false)
}

// The persons of the next level from one end: those who aren't met and know a person of the last one. They are
// met then. `None` where one of those who are known was met from the other end.
fn grow(
    alloc: Global,
    graph: &Graph,
    start: u64,
    mark: bool,
    level: u64,
    last: &[u64],
    met: &mut HashMap<u64, bool>,
) -> Result<Option<Vec<u64>>, AllocError>
    requires held { HoldsRefs graph.now }
    requires above { 0 < level }
    requires side { IsSide graph.now start mark (level - 1) level (get nat_eq met.old) last.now }
    ensures met { IfOk result (λ grown. MatchOption grown (IsMeeting graph.now start mark level (get nat_eq met.old))
        (λ next. HasGrown graph.now start mark level (get nat_eq met.old) (get nat_eq met.new) next.items)) }
    ensures len { IfOk result
        (λ grown. IfSome grown (λ next. hash_map_len met.new ≡ hash_map_len met.old + vec_len next)) }
{
    let mut next = Vec::new(alloc);
    for person in last {
        if meet_friends(graph, start, mark, *person, level, met, &mut next)? {
            return Ok(None);
        }
    }
    Ok(Some(next))
}

// One end of a search: where it begins, the mark of those met from there, and those of its last level.
struct End {
    start: u64,
    mark: bool,
    level: u64,
    last: Vec<u64>,
}

impl Drop for End {
    fn drop(self) {
        let End {
            start: _,
            mark: _,
            level: _,
            last: _,
        } = self;
    }
}

// The end of a search that has met its start alone.
fn end_at(alloc: Global, start: u64, mark: bool) -> Result<End, AllocError>
    ensures { IfOk result
        (λ end. (end.start ≡ start) × (end.mark ≡ mark) × (end.level ≡ 0) × (end.last.items ≡ start ∷ [])) }
{
    let mut last = Vec::new(alloc);
    last.push(start)?;
    Ok(End {
        start,
        mark,
        level: 0,
        last,
    })
}

// Puts the end first that has fewer persons to go on from.
fn smaller_first(near: &mut End, far: &mut End)
    ensures { ((near.new ≡ near.old) × (far.new ≡ far.old)) ⊎ ((near.new ≡ far.old) × (far.new ≡ near.old)) }
{
    if far.last.len() < near.last.len() {
        swap(near, far);
    }
}

// Whether an end has nobody left to go on from.
fn is_over(near: &End, far: &End) -> bool
    ensures { MatchBool result ((near.now.last.items ≡ []) ⊎ (far.now.last.items ≡ []))
        ((0 < length near.now.last.items) × (0 < length far.now.last.items)) }
{
    near.last.is_empty() || far.last.is_empty()
}

/// The length in steps of a shortest walk between two persons, or -1 where there is none. The end that has
/// fewer persons to go on from takes the next step.
/// The conditions: each node that a row of the graph refers to is held, and so are the persons, who are two.
pub(crate) fn between(alloc: Global, graph: &Graph, from: u64, to: u64) -> Result<i64, AllocError>
    requires held { HoldsRefs graph.now }
    requires from_held { IsPerson graph.now from }
    requires to_held { IsPerson graph.now to }
    requires apart { from ≢ to }
    ensures { IfOk result (IsLength graph.now from to) }
{
    let mut met = HashMap::new(alloc);
    met.insert(from, true)?;
    met.insert(to, false)?;
    let mut near = end_at(alloc, from, true)?;
    let mut far = end_at(alloc, to, false)?;
    'steps: loop {
        // No map holds 2^63 persons, so the levels fit.
        let _count = met.len();
        if is_over(&near, &far) {
            return Ok(-1);
        }
        smaller_first(&mut near, &mut far);
        near.level += 1;
        match grow(
            alloc, graph, near.start, near.mark, near.level, &near.last, &mut met,
        )? {
            Some(next) => near.last = next,
            None => return Ok((near.level + far.level) as i64),
        }
    }
}
