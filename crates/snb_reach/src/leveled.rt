//! Persons with their distances.

ghost use Rattle.std.specs.Prelude.{◌≡◌, ◌⊎◌, ◌∷◌, [], ◌++◌, ◌↔◌, ◌<◌, ℕ, IfOk, IsSome, Some, filter, nat_eq, nat_lt};
ghost use Rattle.std.specs.HashMap.{get};
ghost use Rattle.std.specs.List.{All, AllPairs, Contains};
ghost use Rattle.snb_reach.specs.Few.{IsDistanceAt, IsPlaced};

use std::alloc::{AllocError, Global};
use std::collections::HashMap;

// The distance of a person: the one that stands at a place of those met, if it is theirs, and else the level.
// The place from which the next person is looked for.
fn distance_at(met: &[(u64, u64)], at: usize, id: u64, level: u64) -> (u64, usize)
    ensures { IsDistanceAt met.now at id level result.0 result.1 }
{
    match met.get(at) {
        Some(one) => {
            if one.0 == id {
                (one.1, at + 1)
            } else {
                (level, at)
            }
        }
        None => (level, at),
    }
}

// The persons of `ids`: those met have the distance that they have, and the others the level.
pub(crate) fn leveled(
    alloc: Global,
    level: u64,
    met: &[(u64, u64)],
    ids: &[u64],
) -> Result<Vec<(u64, u64)>, AllocError>
    requires met_rises { AllPairs (λ x y. x.0 < y.0) met.now }
    requires ids_rise { AllPairs (λ x y. x < y) ids.now }
    requires among { All (λ e. Contains ids.now e.0) met.now }
    ensures rises { IfOk result (λ all. AllPairs (λ x y. x.0 < y.0) all.items) }
    ensures placed { IfOk result (λ all. All (λ e. IsPlaced level met.now ids.now e.0 e.1) all.items) }
    ensures all { IfOk result (λ all. (q : ℕ) → Contains ids.now q → (n : ℕ) × Contains all.items (q, n)) }
{
    let mut all = Vec::with_capacity(alloc, ids.len())?;
    let mut at = 0;
    for id in ids {
        let (distance, next) = distance_at(met, at, *id, level);
        all.push((*id, distance))?;
        at = next;
    }
    Ok(all)
}

// The same in a map, of `ids` in any order.
pub(crate) fn mapped(
    alloc: Global,
    level: u64,
    met: &[(u64, u64)],
    ids: &[u64],
) -> Result<HashMap<u64, u64>, AllocError>
    requires among { All (λ e. Contains ids.now e.0) met.now }
    ensures placed { IfOk result
        (λ map. (q n : ℕ) → get nat_eq map q ≡ Some n → IsPlaced level met.now ids.now q n) }
    ensures all { IfOk result (λ map. (q : ℕ) → Contains ids.now q → IsSome (get nat_eq map q)) }
{
    let mut map = HashMap::with_capacity(alloc, ids.len())?;
    for id in ids {
        map.insert(*id, level)?;
    }
    for one in met {
        map.insert(one.0, one.1)?;
    }
    Ok(map)
}

// Those whose distance isn't 0.
pub(crate) fn apart(mut met: Vec<(u64, u64)>) -> Vec<(u64, u64)>
    ensures { result.items ≡ filter (λ e. nat_lt 0 e.1) met.items }
{
    met.retain(|one| 0 < one.1);
    met
}
