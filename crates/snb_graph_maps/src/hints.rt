//! Hints where a key is, or where a range begins: a table of places, found by the number of a key or of its group. A
//! hint is believed only where the keys at its place bear it out, so nothing depends on a table but time.

ghost use Rattle.std.specs.Prelude.{◌≡◌, ◌<◌, IfSome, get_or, length, true};
ghost use Rattle.std.specs.Ordering.{is_lt};
ghost use Rattle.snb_graph_maps.specs.Parted.{Begins};
ghost use Rattle.std.specs.declared.cmp.Ordering.TheVariants.{Equal};

use crate::kept::Apart;
use std::alloc::Global;

// Odd, and its bits are in no order: 2 to the 64 by the golden ratio.
const SPREAD: u64 = 11400714819323198485;

/// So many slots are looked at, from the first one of a number on.
pub const REACH: usize = 8;

// So few hints are of no use.
const FEW: usize = 8;

// A slot tells no place beyond.
const MANY: usize = 2147483647;

/// The first slot of a number, in a table of some length.
pub fn first_slot(number: u64, slots: usize) -> usize {
    ((number.wrapping_mul(SPREAD) >> 32).wrapping_mul(slots as u64) >> 32) as usize
}

// Where a key is, if the hints lead there.
pub(crate) fn hinted<K: Apart>(keys: &[K], slots: &[u32], key: &K) -> Option<usize>
    ensures { IfSome result
        (λ at. (at < length keys.now) × (K.cmp (get_or keys.now at key.now) key.now ≡ Equal)) }
{
    let first = first_slot(key.number(), slots.len());
    for i in 0..REACH {
        match slots.get(first.wrapping_add(i)) {
            Some(slot) if *slot > 0 => {
                let at = (*slot - 1) as usize;
                if at < keys.len() && keys[at].cmp(key).is_eq() {
                    return Some(at);
                }
            }
            _ => return None,
        }
    }
    None
}

// Whether the keys that aren't below one begin at a place.
fn begins<K: Apart>(keys: &[K], at: usize, key: &K) -> bool
    ensures { result ≡ true → Begins (λ k. is_lt (K.cmp k key.now)) keys.now at }
{
    if at >= keys.len() || keys[at].cmp(key).is_lt() {
        return false;
    }
    at == 0 || keys[at - 1].cmp(key).is_lt()
}

// Where the keys begin that aren't below one, if the hints lead there.
pub(crate) fn hinted_start<K: Apart>(keys: &[K], groups: &[u32], key: &K) -> Option<usize>
    ensures { IfSome result (λ at. Begins (λ k. is_lt (K.cmp k key.now)) keys.now at) }
{
    let first = first_slot(key.group(), groups.len());
    for i in 0..REACH {
        match groups.get(first.wrapping_add(i)) {
            Some(slot) if *slot > 0 => {
                let at = (*slot - 1) as usize;
                if begins(keys, at, key) {
                    return Some(at);
                }
            }
            _ => return None,
        }
    }
    None
}

/// Free slots for some hints: none for few or too many of them, or where memory doesn't suffice.
pub fn slots_for(alloc: Global, count: usize) -> Vec<u32> {
    if count < FEW || count > MANY {
        return Vec::new(alloc);
    }
    match Vec::from_elem(alloc, 0u32, count * 2) {
        Ok(slots) => slots,
        Err(_) => Vec::new(alloc),
    }
}

/// Leaves a hint, that what has a number is at a place, in the first slot that is free: one more than the place.
pub fn leave(slots: &mut [u32], number: u64, place: usize) {
    let first = first_slot(number, slots.len());
    for i in 0..REACH {
        let at = first.wrapping_add(i);
        if at >= slots.len() || place >= MANY {
            return;
        }
        if slots[at] == 0 {
            slots[at] = (place + 1) as u32;
            return;
        }
    }
}

// Hints for some keys.
pub(crate) fn hints<K: Apart>(alloc: Global, keys: &[K]) -> Vec<u32> {
    let mut slots = slots_for(alloc, keys.len());
    for i in 0..keys.len() {
        leave(slots.as_mut_slice(), keys[i].number(), i);
    }
    slots
}

// Whether a key is the first of its group.
fn leads<K: Apart>(keys: &[K], at: usize) -> bool {
    at < keys.len() && (at == 0 || keys[at].group() != keys[at - 1].group())
}

// Hints for the groups of some keys.
pub(crate) fn group_hints<K: Apart>(alloc: Global, keys: &[K]) -> Vec<u32> {
    let mut count = 0usize;
    for i in 0..keys.len() {
        if leads(keys, i) {
            count = count.saturating_add(1);
        }
    }
    let mut slots = slots_for(alloc, count);
    for i in 0..keys.len() {
        if leads(keys, i) {
            leave(slots.as_mut_slice(), keys[i].group(), i);
        }
    }
    slots
}
