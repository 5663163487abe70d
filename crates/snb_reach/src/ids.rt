//! Persons in a list, of whom most stand there once.

ghost use Rattle.std.specs.Prelude.{◌≡◌, ◌⊎◌, ◌∷◌, [], ◌++◌, ◌↔◌, ◌<◌, ℕ, true, MatchBool, OnOk, slice_set};
ghost use Rattle.std.specs.List.{All, AllPairs, Contains};

use std::alloc::AllocError;

// The place of a person among so many, a power of two.
fn place(person: u64, places: usize) -> usize {
    let spread = person.wrapping_mul(0x9E37_79B9_7F4A_7C15) >> 32;
    spread as usize & places.wrapping_sub(1)
}

// Whether a person is noted at their place. If not, they are noted there now, over whoever was.
fn is_noted(person: u64, noted: &mut Vec<u64>) -> bool
    ensures { MatchBool result
        ((noted.new.items ≡ noted.old.items) × Contains noted.old.items person)
        ((noted.new.items ≡ noted.old.items) ⊎ ((i : ℕ) × (noted.new.items ≡ slice_set noted.old.items i person))) }
{
    let at = place(person, noted.len());
    if noted.len() <= at {
        return false;
    }
    if noted[at] == person {
        return true;
    }
    noted[at] = person;
    false
}

// Adds a person to the list, unless they are noted, and so stand there.
pub(crate) fn add(person: u64, noted: &mut Vec<u64>, ids: &mut Vec<u64>) -> Result<(), AllocError>
    requires noted { All (Contains ids.old.items) noted.old.items }
    ensures noted { OnOk result (All (Contains ids.new.items) noted.new.items) }
    ensures ids { OnOk result
        (((ids.new.items ≡ ids.old.items) × Contains ids.old.items person) ⊎ (ids.new.items ≡ ids.old.items ++ person ∷ [])) }
{
    if is_noted(person, noted) {
        return Ok(());
    }
    ids.push(person)?;
    Ok(())
}

// Puts the persons in order, each once.
pub(crate) fn order(ids: &mut Vec<u64>)
    ensures rises { AllPairs (λ x y. x < y) ids.new.items }
    ensures same { (q : ℕ) → Contains ids.new.items q ↔ Contains ids.old.items q }
{
    ids.sort_unstable();
    ids.dedup();
}
