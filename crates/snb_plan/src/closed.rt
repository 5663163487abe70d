//! Whether each update has a new key, and finds the nodes that it refers to in time.

ghost use Rattle.std.specs.Prelude.{◌≡◌, ◌↔◌, IsTrue, MatchOption, OnOk, All};
ghost use Rattle.snb_schema.specs.Awaiting.{is_awaited};
ghost use Rattle.snb_schema.specs.Faults.{OnBad};
ghost use Rattle.snb_schema.specs.References.{refs_of};
ghost use Rattle.snb_plan.specs.Closed.{is_in_lane, IsFirstUnmet, DependsTooLate, IsWrongBy};
ghost use Rattle.snb_plan.specs.Added.{update_of, HasAdded, IsFine, IsKeyTaken, IsMetAt, IsMetBy, IsTakenBy, MeetsBy};

use crate::added::{Added, Mark};
use crate::plan::waits;
use snb_schema::{Fault, FileId, Held, Key, Kind, Line, Missing, Refusal, keys_of, refs_of};

// Whether inserts wait for nodes of this kind.
fn is_awaited(kind: Kind) -> bool
    ensures { result ≡ is_awaited kind }
{
    match kind {
        Kind::Person | Kind::Forum => true,
        _ => false,
    }
}

// Whether an update before in the same lane may add a node of this kind.
fn is_in_lane(kind: Kind) -> bool
    ensures { result ≡ is_in_lane kind }
{
    match kind {
        Kind::Forum | Kind::Post | Kind::Comment => true,
        _ => false,
    }
}

// Whether an update that waits has a t_d that isn't below its t.
fn is_late(lane: u32, file: FileId, line: &Line) -> bool
    ensures { IsTrue result ↔ DependsTooLate (update_of lane file line.now) }
{
    waits(&line.op) && line.t <= line.t_d
}

// Whether the key is held, or an update so far took it.
fn is_key_taken<H: Held>(held: &H, added: &Added, key: &Key) -> bool
    ensures { IsTrue result ↔ IsKeyTaken (H.holds held.now) added.now key.now }
{
    held.has(key) || added.get(key).is_some()
}

// Whether a key that the update takes is held or taken.
fn is_taken<H: Held>(held: &H, added: &Added, lane: u32, file: FileId, line: &Line) -> bool
    ensures { IsTrue result ↔ IsTakenBy (H.holds held.now) added.now (update_of lane file line.now) }
{
    let keys = keys_of(&line.op);
    if is_key_taken(held, added, &keys.one) {
        return true;
    }
    match &keys.other {
        None => false,
        Some(other) => is_key_taken(held, added, other),
    }
}

// Whether the update with this mark meets a reference.
fn meets(mark: Mark, lane: u32, t_d: u64, node: Missing) -> bool
    ensures { IsTrue result ↔ MeetsBy mark lane t_d node }
{
    if mark.node != Some(node) {
        return false;
    }
    if is_awaited(node.kind) && mark.t <= t_d {
        return true;
    }
    is_in_lane(node.kind) && mark.lane == lane
}

// Whether the node is held, or is added so that the reference to it is met.
fn is_met<H: Held>(held: &H, added: &Added, lane: u32, t_d: u64, node: Missing) -> bool
    ensures { IsTrue result ↔ IsMetAt (H.holds held.now) added.now lane t_d node }
{
    let key = Key::Node {
        kind: node.kind,
        id: node.id,
    };
    if held.has(&key) {
        return true;
    }
    match added.get(&key) {
        None => false,
        Some(mark) => meets(mark, lane, t_d, node),
    }
}

// The first node that the update refers to and that isn't met.
fn first_unmet<H: Held>(held: &H, added: &Added, lane: u32, line: &Line) -> Option<Missing>
    ensures { MatchOption result (All (IsMetAt (H.holds held.now) added.now lane line.now.t_d) (refs_of line.now.op))
        (IsFirstUnmet (IsMetAt (H.holds held.now) added.now lane line.now.t_d) (refs_of line.now.op)) }
{
    for node in refs_of(&line.op) {
        if !is_met(held, added, lane, line.t_d, node) {
            return Some(node);
        }
    }
    None
}

// What is wrong with an update, by the updates so far.
fn wrong_with<H: Held>(
    held: &H,
    added: &Added,
    lane: u32,
    file: FileId,
    line: &Line,
) -> Option<Refusal>
    ensures { MatchOption result (IsFine (H.holds held.now) added.now (update_of lane file line.now))
        (IsWrongBy (IsTakenBy (H.holds held.now) added.now) (IsMetBy (H.holds held.now) added.now)
        (update_of lane file line.now)) }
{
    if is_late(lane, file, line) {
        return Some(Refusal::LateDependency {
            file,
            line: line.number,
        });
    }
    if is_taken(held, added, lane, file, line) {
        return Some(Refusal::Duplicate {
            file,
            line: line.number,
        });
    }
    match first_unmet(held, added, lane, line) {
        None => None,
        Some(missing) => Some(Refusal::Unmet {
            file,
            line: line.number,
            missing,
        }),
    }
}

/// Adds an update, unless something is wrong with it.
pub fn check_update<H: Held>(
    held: &H,
    added: &mut Added,
    lane: u32,
    file: FileId,
    line: &Line,
) -> Result<(), Fault>
    ensures fine { OnOk result (IsFine (H.holds held.now) added.old (update_of lane file line.now)) }
    ensures more { OnOk result (HasAdded added.old lane line.now added.new) }
    ensures bad { OnBad result
        (IsWrongBy (IsTakenBy (H.holds held.now) added.old) (IsMetBy (H.holds held.now) added.old)
        (update_of lane file line.now)) }
{
    if let Some(refusal) = wrong_with(held, added, lane, file, line) {
        return Err(Fault::Bad { refusal });
    }
    added.add(lane, line)?;
    Ok(())
}
