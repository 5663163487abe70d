//! Entries that wait to be put in order, found by a hash of their keys.

ghost use Rattle.std.specs.Prelude.{◌≡◌, ◌+◌, ◌&&◌, ◌<◌, ◌≤◌, ◌++◌, ◌∷◌, [], Contains, cond, length, None, Some, IfOk, IfSome, IsSome, IsSorted, not, OnOk, OnErr, true, vec_capacity, vec_len};
ghost use Rattle.std.specs.Option.{option_copied};
ghost use Rattle.std.specs.Ordering.{is_le};
ghost use Rattle.std.specs.BTreeMap.{insert_entry, is_at};
ghost use Rattle.std.specs.Map.{keys_of, remove_entry, values_of};
ghost use Rattle.std.specs.Map.Iter.{TakesFirst, deref_pair};
ghost use Rattle.std.specs.List.Sorted.{IsStrictlySortedBy};
ghost use Rattle.snb_graph_maps.specs.Merged.{Rises, entries_within, is_before_end, is_up_to_end, merged, value_at};
ghost use Rattle.snb_graph_maps.specs.Ahead.{AreAt, IsLeast, ahead, before, is_above, is_from};

use crate::kept::Apart;
use crate::sorted::Sorted;
use std::alloc::{AllocError, Global};
use std::collections::HashMap;
use std::marker::Model;
use std::mem;

// Whether a key is above one, if there is one.
fn is_above<K: Apart>(low: Option<&K>, key: &K) -> bool
    ensures { result ≡ is_above K.cmp (option_copied low.entry) key.now }
{
    match low {
        Some(low) => low.cmp(key).is_lt(),
        None => true,
    }
}

// Whether a key isn't below one that there is.
fn is_from<K: Apart>(low: Option<&K>, key: &K) -> bool
    ensures { result ≡ is_from K.cmp (option_copied low.entry) key.now }
{
    match low {
        Some(low) => low.cmp(key).is_le(),
        None => false,
    }
}

// The lesser of a key above one and the least of those before it.
fn lesser<'a, K: Apart>(low: Option<&K>, key: &'a K, least: Option<&'a K>) -> Option<&'a K>
    ensures { option_copied result
        ≡ cond (is_above K.cmp (option_copied low.entry) key.now
        && not (is_from K.cmp (option_copied least.entry) key.now)) (Some key.now) (option_copied least.entry) }
{
    if is_above(low, key) && !is_from(least, key) {
        Some(key)
    } else {
        least
    }
}

// The least of the keys above one, or of all of them.
fn least_in<'a, K: Apart, V>(map: &'a HashMap<K, V>, low: Option<&K>) -> Option<&'a K>
    ensures { IsLeast K.cmp (is_above K.cmp (option_copied low.entry)) (keys_of map.now.entries)
        (option_copied result) }
{
    let mut least: Option<&'a K> = None;
    for key in map.keys() {
        least = lesser(low, key, least);
    }
    least
}

// What is kept under a key that is there.
fn held<'a, K: Apart, V>(map: &'a HashMap<K, V>, key: &K) -> &'a V
    requires { IsSome (value_at K.cmp map.now.entries key.now) }
    ensures { value_at K.cmp map.now.entries key.now ≡ Some result.now }
{
    match map.get(key) {
        Some(value) => value,
        None => unreachable!(),
    }
}

// The least key.
fn least<'a, K: Apart, V>(map: &'a HashMap<K, V>) -> Option<&'a K>
    ensures { IsLeast K.cmp (λ k. true) (keys_of map.now.entries) (option_copied result) }
{
    let none: Option<&'a K> = None;
    least_in(map, none)
}

// The least key that isn't below one.
fn since<'a, K: Apart, V>(map: &'a HashMap<K, V>, from: &K) -> Option<&'a K>
    ensures { IsLeast K.cmp (λ k. is_le (K.cmp from.now k)) (keys_of map.now.entries) (option_copied result) }
{
    match map.get_key_value(from) {
        Some((key, _)) => Some(key),
        None => least_in(map, Some(from)),
    }
}

// Whether no key is below the one before it.
fn is_sorted<K: Apart>(keys: &[K]) -> bool
    ensures { result ≡ true → IsSorted K.cmp keys.now }
{
    for i in 1..keys.len() {
        if keys[i].cmp(&keys[i - 1]).is_lt() {
            return false;
        }
    }
    true
}

// Clones of the keys.
fn cloned_keys<K: Apart, V>(alloc: Global, map: &HashMap<K, V>) -> Result<Vec<K>, AllocError>
    ensures { IfOk result (λ keys. keys.items ≡ keys_of map.now.entries) }
{
    let mut keys = Vec::with_capacity(alloc, map.len())?;
    for key in map.keys() {
        keys.push(key.clone()?)?;
    }
    Ok(keys)
}

// Adds an item to a list that has room for it.
fn put<T: Drop>(list: &mut Vec<T>, item: T)
    requires { vec_len list.old < vec_capacity list.old }
    ensures items { list.new.items ≡ list.old.items ++ item ∷ [] }
    ensures len { vec_len list.new ≡ vec_len list.old + 1 }
    ensures room { vec_capacity list.old ≤ vec_capacity list.new }
{
    if list.push(item).is_err() {
        unreachable!();
    }
}

// Moves the values of a map into a list that has room for them.
fn move_all<K: Apart, V: Drop>(map: HashMap<K, V>, values: &mut Vec<V>)
    requires none { values.old.items ≡ [] }
    requires room { length map.entries ≤ vec_capacity values.old }
    ensures { values.new.items ≡ values_of map.entries }
{
    for (_, value) in map {
        put(values, value);
    }
}

// Moves the values of a map into a list that has room for them, in the order of some of its keys.
fn move_by<K: Apart, V: Drop>(mut map: HashMap<K, V>, keys: &[K], values: &mut Vec<V>)
    requires rises { IsStrictlySortedBy K.cmp keys.now }
    requires held { (k : K) → Contains keys.now k → IsSome (value_at K.cmp map.entries k) }
    requires none { values.old.items ≡ [] }
    requires room { length keys.now ≤ vec_capacity values.old }
    ensures { AreAt K.cmp map.entries keys.now values.new.items }
{
    for key in keys {
        match map.remove(key) {
            Some(value) => put(values, value),
            None => unreachable!(),
        }
    }
}

// The entries of a map in order; its keys, and a list that has room for its values.
fn in_order<K: Apart, V: Drop>(
    alloc: Global,
    map: HashMap<K, V>,
    mut keys: Vec<K>,
    mut values: Vec<V>,
) -> Sorted<K, V>
    requires keys { keys.items ≡ keys_of map.entries }
    requires none { values.items ≡ [] }
    requires room { length map.entries ≤ vec_capacity values }
    ensures { result ≡ merged K.cmp [] map.entries }
{
    let _ = map.len();
    if is_sorted(keys.as_slice()) {
        move_all(map, &mut values);
        return Sorted::of(alloc, keys, values);
    }
    keys.sort_unstable();
    move_by(map, keys.as_slice(), &mut values);
    Sorted::of(alloc, keys, values)
}

/// Entries in no order. A contract sees them in the order of their keys.
pub(crate) struct Pending<K: Apart, V: Drop> {
    alloc: Global,
    map: HashMap<K, V>,
}

impl<K: Apart, V: Drop> Drop for Pending<K, V> {
    fn drop(self) {
        let Pending { alloc: _, map: _ } = self;
    }
}

impl<K: Apart, V: Drop> Model for Pending<K, V> {
    ghost use Rattle.std.specs.Prelude.{List, []};
    ghost use Rattle.snb_graph_maps.specs.Merged.{merged};

    ghost Value = { List (K × V) };

    ghost view = { λ s. merged K.cmp [] s.map.entries };
}

impl<K: Apart, V: Drop> Pending<K, V> {
    // No entries. Takes no memory.
    pub(crate) fn empty(alloc: Global) -> Self
        ensures { result ≡ [] }
    {
        Pending {
            alloc,
            map: HashMap::new(alloc),
        }
    }

    // The entries are in order.
    pub(crate) fn known(&self)
        ensures { Rises K.cmp self.now }
    {
        let _ = self.map.len();
    }

    // How many entries there are.
    pub(crate) fn len(&self) -> usize
        ensures { result ≡ length self.now }
    {
        self.map.len()
    }

    // What is kept under a key.
    pub(crate) fn get(&self, key: &K) -> Option<&V>
        ensures { option_copied result ≡ value_at K.cmp self.now key.now }
    {
        self.map.get(key)
    }

    // Adds an entry of a key that is new. Want of memory leaves all as it was.
    pub(crate) fn insert(&mut self, key: K, value: V) -> Result<(), AllocError>
        requires { value_at K.cmp self.old key ≡ None }
        ensures ok { OnOk result (self.new ≡ insert_entry K.cmp self.old key value) }
        ensures err { OnErr result (self.new ≡ self.old) }
    {
        self.map.insert(key, value)?;
        Ok(())
    }

    // Takes out the entry of a key, if there is one.
    pub(crate) fn remove(&mut self, key: &K)
        ensures { self.new ≡ remove_entry (is_at (K.cmp key.now)) self.old }
    {
        let _ = self.map.remove(key);
    }

    // Takes all entries out, in order. Where memory doesn't suffice, they stay.
    pub(crate) fn take_sorted(&mut self) -> Result<Sorted<K, V>, AllocError>
        ensures ok { IfOk result (λ all. all ≡ self.old) }
        ensures none { OnOk result (self.new ≡ []) }
        ensures err { OnErr result (self.new ≡ self.old) }
    {
        let keys = cloned_keys(self.alloc, &self.map)?;
        let values = Vec::with_capacity(self.alloc, self.map.len())?;
        let map = mem::replace(&mut self.map, HashMap::new(self.alloc));
        Ok(in_order(self.alloc, map, keys, values))
    }

    // All entries, in order.
    pub(crate) fn all(&self) -> Scan<'_, K, V>
        ensures { result ≡ self.now }
    {
        let next = least(&self.map);
        Scan {
            map: &self.map,
            next,
            end: None,
        }
    }

    // The entries from one key on and before another, in order.
    pub(crate) fn range(&self, from: &K, end: &K) -> Scan<'_, K, V>
        ensures { result ≡ entries_within K.cmp is_before_end from.now end.now self.now }
    {
        Scan::over(&self.map, since(&self.map, from), since(&self.map, end))
    }

    // The entries from one key up to another, in order.
    pub(crate) fn through(&self, from: &K, last: &K) -> Scan<'_, K, V>
        ensures { result ≡ entries_within K.cmp is_up_to_end from.now last.now self.now }
    {
        let end = least_in(&self.map, Some(last));
        Scan::over(&self.map, since(&self.map, from), end)
    }

    // The same entries.
    pub(crate) fn try_copy(&self) -> Result<Self, AllocError>
    where
        V: Clone,
        requires { (v w : V) → V.is_clone v w → w ≡ v }
        ensures { IfOk result (λ copy. copy ≡ self.now) }
    {
        Ok(Pending {
            alloc: self.alloc,
            map: self.map.clone()?,
        })
    }
}

// A walk over entries that aren't in order: it looks for each next one among all.
#[derive(Drop)]
pub(crate) struct Scan<'a, K: Apart, V> {
    map: &'a HashMap<K, V>,
    next: Option<&'a K>,
    end: Option<&'a K>,
}

impl<'a, K: Apart, V> Model for Scan<'a, K, V> {
    ghost use Rattle.std.specs.Prelude.{List};
    ghost use Rattle.std.specs.Option.{option_copied};
    ghost use Rattle.snb_graph_maps.specs.Ahead.{IsWithin, ahead};

    ghost Value = { List (K × V) };

    ghost view = { λ s. ahead K.cmp s.map.now.entries (option_copied s.next) (option_copied s.end) };

    ghost invariant = { λ s. IsWithin K.cmp s.map.now.entries (option_copied s.next) (option_copied s.end) };
}

// A key, unless it is beyond the end.
fn before<'a, K: Apart>(next: Option<&'a K>, end: Option<&K>) -> Option<&'a K>
    ensures { option_copied result ≡ before K.cmp (option_copied next.entry) (option_copied end.entry) }
{
    match next {
        Some(key) if !is_from(end, key) => Some(key),
        _ => None,
    }
}

impl<'a, K: Apart, V> Scan<'a, K, V> {
    // From one key on and before another.
    fn over(map: &'a HashMap<K, V>, next: Option<&'a K>, end: Option<&'a K>) -> Self
        requires { IfSome (option_copied next) (λ k. Contains (keys_of map.now.entries) k) }
        ensures { result ≡ ahead K.cmp map.now.entries (option_copied next.entry) (option_copied end.entry) }
    {
        Scan {
            map,
            next: before(next, end),
            end,
        }
    }

    // Takes the first entry.
    pub(crate) fn take(&mut self) -> Option<(&'a K, &'a V)>
        ensures { TakesFirst deref_pair self.old result self.new }
    {
        match self.next {
            None => None,
            Some(key) => {
                let value = held(self.map, key);
                let above = least_in(self.map, Some(key));
                self.next = before(above, self.end);
                Some((key, value))
            }
        }
    }
}
