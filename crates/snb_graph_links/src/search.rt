//! Searches in a list in the order of its keys, by hints and else binary ones.

ghost use Rattle.std.specs.Prelude.{◌≡◌, IfSome, Some};
ghost use Rattle.std.specs.Option.{option_copied};
ghost use Rattle.std.specs.Ordering.{nat_cmp};
ghost use Rattle.snb_graph_maps.specs.Merged.{Rises, value_at};

use snb_graph_maps::{Apart, REACH, first_slot, leave, slots_for};
use std::alloc::Global;

// What is kept under a key.
fn find<'a, K: Apart, V>(entries: &'a [(K, V)], key: &K) -> Option<&'a V>
    requires { Rises K.cmp entries.now }
    ensures { option_copied result ≡ value_at K.cmp entries.now key.now }
{
    match entries.binary_search_by(|entry| entry.0.cmp(key)) {
        Ok(at) => Some(&entries[at].1),
        Err(_) => None,
    }
}

// Where the pairs of a number are, if the hints lead there.
fn hinted<'a>(
    heads: &'a [(u64, (usize, usize))],
    slots: &[u32],
    of: u64,
) -> Option<&'a (usize, usize)>
    requires { Rises nat_cmp heads.now }
    ensures { IfSome result (λ span. value_at nat_cmp heads.now of ≡ Some span.now) }
{
    let first = first_slot(of, slots.len());
    for i in 0..REACH {
        match slots.get(first.wrapping_add(i)) {
            Some(slot) if *slot > 0 => {
                let at = (*slot - 1) as usize;
                if at < heads.len() && heads[at].0 == of {
                    return Some(&heads[at].1);
                }
            }
            _ => return None,
        }
    }
    None
}

/// Where the pairs of a number are, by hints or else by a search.
pub fn span_of<'a>(
    heads: &'a [(u64, (usize, usize))],
    slots: &[u32],
    of: u64,
) -> Option<&'a (usize, usize)>
    requires { Rises nat_cmp heads.now }
    ensures { option_copied result ≡ value_at nat_cmp heads.now of }
{
    match hinted(heads, slots, of) {
        Some(span) => Some(span),
        None => find(heads, &of),
    }
}

/// Hints where numbers are.
pub fn hints(alloc: Global, heads: &[(u64, (usize, usize))]) -> Vec<u32> {
    let mut slots = slots_for(alloc, heads.len());
    for i in 0..heads.len() {
        leave(slots.as_mut_slice(), heads[i].0, i);
    }
    slots
}
