//! An ordered map in two parts.

ghost use Rattle.std.specs.Prelude.{◌<◌, ◌^◌, ◌≡◌, ◌≤◌, ◌++◌, ◌∷◌, [], None, Some, filter, length, IfOk, IfSome, OnOk, OnErr, false};
ghost use Rattle.std.specs.Option.{option_copied, is_some};
ghost use Rattle.std.specs.BTreeMap.{insert_entry, is_at};
ghost use Rattle.std.specs.Map.{remove_entry};
ghost use Rattle.std.specs.Ordering.{is_gt, is_le};
ghost use Rattle.std.specs.Arc.{arc_value};
ghost use Rattle.snb_graph_maps.specs.Merged.{value_at, all_of, entries_of, entries_within, is_before_end, is_up_to_end, most_entries, AreStored, HasAllOf, Rises};
ghost use Rattle.snb_graph_maps.specs.declared.layer.Layer.TheVariants as Layer;

use crate::added::Added;
use crate::kept::Apart;
use crate::layer::Layer;
use crate::sorted::{Sorted, Span};
use crate::walk::Walk;
use std::alloc::{AllocError, Global};
use std::marker::Model;
use std::sync::Arc;

// More entries than any memory holds, so that those of both parts can be counted.
const MOST_ENTRIES: usize = 1152921504606846976;

/// A map from keys to values. Its copies share the part that was frozen, a list in the order of keys. Until the
/// first `freeze` entries may come in any order (`Layer::Frozen`).
pub struct LayeredMap<K: Apart, V: Clone + Drop> {
    alloc: Global,
    frozen: Option<Arc<Sorted<K, V>>>,
    added: Added<K, V>,
}

impl<K: Apart, V: Clone + Drop> Drop for LayeredMap<K, V> {
    fn drop(self) {
        let LayeredMap {
            alloc: _,
            frozen: _,
            added: _,
        } = self;
    }
}

impl<K: Apart, V: Clone + Drop> Model for LayeredMap<K, V> {
    ghost use Rattle.std.specs.Prelude.{List};
    ghost use Rattle.snb_graph_maps.specs.Merged.{entries_of, AreStored};

    // The frozen entries, and the others.
    ghost Value = { List (K × V) × List (K × V) };

    ghost view = { λ s. (entries_of s.frozen, s.added) };

    ghost invariant = { λ s. AreStored K.cmp (entries_of s.frozen) s.added };
}

// Adds clones of a key and a value after all entries.
fn push_clones<K: Apart, V: Clone + Drop>(
    all: &mut Sorted<K, V>,
    key: &K,
    value: &V,
) -> Result<(), AllocError>
    requires { (v w : V) → V.is_clone v w → w ≡ v }
    ensures { OnOk result (all.new ≡ all.old ++ (key.now, value.now) ∷ []) }
{
    let key = key.clone()?;
    let value = value.clone()?;
    all.push(key, value)?;
    Ok(())
}

// Clones of the entries of a walk.
fn cloned<K: Apart, V: Clone + Drop>(
    alloc: Global,
    walk: Walk<'_, K, V>,
    room: usize,
) -> Result<Sorted<K, V>, AllocError>
    requires { (v w : V) → V.is_clone v w → w ≡ v }
    ensures { IfOk result (λ all. all ≡ walk.entry) }
{
    let mut all = Sorted::with_room(alloc, room)?;
    for (key, value) in walk {
        push_clones(&mut all, key, value)?;
    }
    Ok(all)
}

impl<K: Apart, V: Clone + Drop> LayeredMap<K, V> {
    /// No entries. Takes no memory.
    pub fn empty(alloc: Global) -> Self
        ensures { result ≡ ([], []) }
    {
        LayeredMap {
            alloc,
            frozen: None,
            added: Added::empty(alloc),
        }
    }

    /// A law: both parts are in order and share no key, and their entries can be counted.
    pub fn known(&self)
        ensures { AreStored K.cmp self.now.0 self.now.1 }
    {
        let _ = &self.added;
    }

    // The frozen entries.
    fn frozen(&self) -> Span<'_, K, V>
        ensures lent { result ≡ self.now.0 }
        ensures stored { AreStored K.cmp self.now.0 self.now.1 }
    {
        let _ = &self.added;
        match &self.frozen {
            Some(frozen) => Span::over(frozen.keys(), frozen.values()),
            None => Span::over(&[], &[]),
        }
    }

    // The frozen entries whose keys aren't below one.
    fn since(&self, key: &K) -> Span<'_, K, V>
        ensures { result ≡ filter (λ e. is_le (K.cmp key.now e.0)) self.now.0 }
    {
        let _ = &self.added;
        match &self.frozen {
            Some(frozen) => frozen.since(key),
            None => Span::over(&[], &[]),
        }
    }

    // What is frozen under a key, if the hints lead to it.
    fn hinted(&self, key: &K) -> Option<&V>
        ensures { IfSome result (λ v. value_at K.cmp self.now.0 key.now ≡ Some v.now) }
    {
        let _ = &self.added;
        match &self.frozen {
            Some(frozen) => frozen.hinted(key),
            None => None,
        }
    }

    /// What is kept under a key. Takes no memory.
    pub fn get(&self, key: &K) -> Option<&V>
        ensures { option_copied result ≡ value_at K.cmp (all_of K.cmp self.now) key.now }
    {
        let _ = &self.alloc;
        if let Some(value) = self.hinted(key) {
            return Some(value);
        }
        match self.added.get(key) {
            Some(value) => Some(value),
            None => self.frozen().find(key),
        }
    }

    /// Whether there is an entry of the key. Takes no memory.
    pub fn has(&self, key: &K) -> bool
        ensures { result ≡ is_some (value_at K.cmp (all_of K.cmp self.now) key.now) }
    {
        self.get(key).is_some()
    }

    // Adds an entry to the added ones.
    fn insert(&mut self, key: K, value: V) -> Result<(), AllocError>
        requires new { value_at K.cmp (all_of K.cmp self.old) key ≡ None }
        requires room { length (all_of K.cmp self.old) < most_entries }
        ensures ok { OnOk result (all_of K.cmp self.new ≡ insert_entry K.cmp (all_of K.cmp self.old) key value) }
        ensures err { OnErr result (self.new ≡ self.old) }
        ensures frozen { self.new.0 ≡ self.old.0 }
    {
        self.added.insert(key, value)?;
        Ok(())
    }

    // Adds an entry to those that are soon frozen, where nothing is frozen yet, and else to the added ones.
    fn settle(&mut self, key: K, value: V) -> Result<(), AllocError>
        requires new { value_at K.cmp (all_of K.cmp self.old) key ≡ None }
        requires room { length (all_of K.cmp self.old) < most_entries }
        ensures ok { OnOk result (all_of K.cmp self.new ≡ insert_entry K.cmp (all_of K.cmp self.old) key value) }
        ensures err { OnErr result (self.new ≡ self.old) }
        ensures more { OnOk result (HasAllOf self.old.0 self.new.0) }
    {
        if self.frozen.is_none() {
            self.added.load();
        }
        self.insert(key, value)
    }

    /// Adds an entry to one of the parts. Want of memory leaves all as it was.
    /// The condition: no entry has the key.
    pub fn add(&mut self, key: K, value: V, half: Layer) -> Result<(), AllocError>
        requires { value_at K.cmp (all_of K.cmp self.old) key ≡ None }
        ensures ok { OnOk result (all_of K.cmp self.new ≡ insert_entry K.cmp (all_of K.cmp self.old) key value) }
        ensures err { OnErr result (self.new ≡ self.old) }
        ensures frozen { half ≡ Layer.Added → self.new.0 ≡ self.old.0 }
        ensures more { HasAllOf self.old.0 self.new.0 }
    {
        if self.len() >= MOST_ENTRIES {
            return Err(AllocError);
        }
        match half {
            Layer::Frozen => self.settle(key, value),
            Layer::Added => self.insert(key, value),
        }
    }

    /// Takes out the entry of a key, if there is one. Takes no memory.
    /// The condition: no frozen entry has the key.
    pub fn take_back(&mut self, key: &K)
        requires { value_at K.cmp self.old.0 key.now ≡ None }
        ensures gone { all_of K.cmp self.new ≡ remove_entry (is_at (K.cmp key.now)) (all_of K.cmp self.old) }
        ensures frozen { self.new.0 ≡ self.old.0 }
    {
        self.added.remove(key);
    }

    /// How many entries there are.
    pub fn len(&self) -> usize
        ensures count { result ≡ length (all_of K.cmp self.now) }
        ensures few { result ≤ 1152921504606846976 }
    {
        let _ = &self.alloc;
        self.frozen().len() + self.added.len()
    }

    /// All entries, in order. Takes no memory.
    pub fn all(&self) -> Walk<'_, K, V>
        ensures { result ≡ all_of K.cmp self.now }
    {
        let _ = &self.alloc;
        Walk::over(self.frozen(), self.added.all())
    }

    /// The entries from one key on and before another, which isn't below the first, in order. Takes no
    /// memory.
    pub fn range(&self, from: K, end: K) -> Walk<'_, K, V>
        requires { is_gt (K.cmp from end) ≡ false }
        ensures within { result ≡ entries_within K.cmp is_before_end from end (all_of K.cmp self.now) }
        ensures few { length result < 2 ^ 63 }
    {
        let _ = &self.alloc;
        let frozen = self.since(&from).before(&end);
        let added = self.added.range(from, end);
        Walk::over(frozen, added)
    }

    /// The entries from one key up to another, which isn't below the first, in order. Takes no memory.
    pub fn through(&self, from: K, last: K) -> Walk<'_, K, V>
        requires { is_gt (K.cmp from last) ≡ false }
        ensures within { result ≡ entries_within K.cmp is_up_to_end from last (all_of K.cmp self.now) }
        ensures few { length result < 2 ^ 63 }
    {
        let _ = &self.alloc;
        let frozen = self.since(&from).through(&last);
        let added = self.added.through(from, last);
        Walk::over(frozen, added)
    }

    // All entries, in order: taken out where they may have come in any order, and else clones. Where memory doesn't
    // suffice, the map is as it was.
    fn whole(&mut self) -> Result<Sorted<K, V>, AllocError>
        requires { (v w : V) → V.is_clone v w → w ≡ v }
        ensures ok { IfOk result (λ all. all ≡ all_of K.cmp self.old) }
        ensures err { OnErr result (self.new ≡ self.old) }
    {
        if self.frozen.is_none() && self.added.is_loaded() {
            return self.added.take_sorted();
        }
        cloned(self.alloc, self.all(), self.len())
    }

    /// Makes all entries the frozen part, which copies share. Where memory doesn't suffice, the map is
    /// as it was.
    /// The condition: a clone of a value is equal to it.
    pub fn freeze(&mut self) -> Result<(), AllocError>
        requires { (v w : V) → V.is_clone v w → w ≡ v }
        ensures ok { OnOk result (self.new ≡ (all_of K.cmp self.old, [])) }
        ensures err { OnErr result (self.new ≡ self.old) }
    {
        if self.frozen.is_some() && self.added.is_empty() {
            return Ok(());
        }
        let none = Sorted::with_room(self.alloc, 0)?;
        let mut shared = Arc::new(self.alloc, none)?;
        let Some(all) = Arc::get_mut(&mut shared) else {
            return Err(AllocError);
        };
        *all = self.whole()?;
        all.hint();
        self.frozen = Some(shared);
        self.added = Added::empty(self.alloc);
        Ok(())
    }

    /// A map with the same entries, which shares the frozen part and copies the others. An error says
    /// that memory doesn't suffice.
    /// The condition: a clone of a value is equal to it.
    pub fn try_copy(&self) -> Result<Self, AllocError>
        requires { (v w : V) → V.is_clone v w → w ≡ v }
        ensures { IfOk result (λ copy. copy ≡ self.now) }
    {
        let frozen = match &self.frozen {
            Some(frozen) => Some(Arc::try_clone(frozen)?),
            None => None,
        };
        Ok(LayeredMap {
            alloc: self.alloc,
            frozen,
            added: self.added.try_copy()?,
        })
    }
}
