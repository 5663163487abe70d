//! Persons with their distances.

ghost use Rattle.std.specs.List.Sorted.{IsNonDecreasingBy, IsPermutation};

use snb_base::OwnedList;
use std::alloc::Global;

/// Persons, each with a distance in steps.
pub type Near = OwnedList<(u64, u64)>;

/// The persons in an order in which their ids don't fall. Takes no memory.
pub(crate) fn by_id(alloc: Global, near: Near) -> Near
    ensures permutation { IsPermutation near result }
    ensures rises { IsNonDecreasingBy (λ one. one.0) result }
{
    let mut pairs = near.into_vec();
    pairs.sort_unstable_by_key(|one| one.0);
    Near::from_vec(alloc, pairs)
}
