//! The entries of a map that aren't frozen.

ghost use Rattle.std.specs.Prelude.{◌≡◌, [], IfOk, None, OnOk, OnErr, false, length, true};
ghost use Rattle.std.specs.Option.{option_copied};
ghost use Rattle.std.specs.Ordering.{is_gt};
ghost use Rattle.std.specs.BTreeMap.{insert_entry, is_at};
ghost use Rattle.std.specs.Map.{remove_entry};
ghost use Rattle.std.specs.Map.Iter.{TakesFirst, deref_pair};
ghost use Rattle.snb_graph_maps.specs.Merged.{Rises, entries_within, is_before_end, is_up_to_end, value_at};

use crate::kept::Apart;
use crate::pending::{Pending, Scan};
use crate::sorted::Sorted;
use std::alloc::{AllocError, Global};
use std::collections::BTreeMap;
use std::collections::btree_map::Range;
use std::marker::Model;

/// Entries in an ordered map, or, while a map is loaded, in the order in which they came. A contract sees them in
/// the order of their keys.
pub(crate) struct Added<K: Apart, V: Clone + Drop> {
    alloc: Global,
    map: BTreeMap<K, V>,
    pending: Option<Pending<K, V>>,
}

impl<K: Apart, V: Clone + Drop> Drop for Added<K, V> {
    fn drop(self) {
        let Added {
            alloc: _,
            map: _,
            pending: _,
        } = self;
    }
}

impl<K: Apart, V: Clone + Drop> Model for Added<K, V> {
    ghost use Rattle.std.specs.Prelude.{List};
    ghost use Rattle.snb_graph_maps.specs.Ahead.{waiting};

    ghost Value = { List (K × V) };

    ghost view = { λ s. waiting s.pending s.map.entries };
}

// What is kept under a key of an ordered map. Where keys come in rising order, its last one tells that
// a key is new.
fn kept_at<'a, K: Apart, V>(map: &'a BTreeMap<K, V>, key: &K) -> Option<&'a V>
    ensures { option_copied result ≡ value_at K.cmp map.now.entries key.now }
{
    match map.last_key_value() {
        Some((last, _)) if last.cmp(key).is_lt() => None,
        _ => map.get(key),
    }
}

impl<K: Apart, V: Clone + Drop> Added<K, V> {
    // No entries. Takes no memory.
    pub(crate) fn empty(alloc: Global) -> Self
        ensures { result ≡ [] }
    {
        Added {
            alloc,
            map: BTreeMap::new(alloc),
            pending: None,
        }
    }

    // The entries are in order.
    pub(crate) fn known(&self)
        ensures { Rises K.cmp self.now }
    {
        match &self.pending {
            Some(pending) => pending.known(),
            None => {
                let _ = self.map.len();
            }
        }
    }

    // Whether there is no entry.
    pub(crate) fn is_empty(&self) -> bool
        ensures { result ≡ true → self.now ≡ [] }
    {
        match &self.pending {
            Some(pending) => pending.len() == 0,
            None => self.map.is_empty(),
        }
    }

    // How many entries there are.
    pub(crate) fn len(&self) -> usize
        ensures { result ≡ length self.now }
    {
        match &self.pending {
            Some(pending) => pending.len(),
            None => self.map.len(),
        }
    }

    // What is kept under a key.
    pub(crate) fn get(&self, key: &K) -> Option<&V>
        ensures { option_copied result ≡ value_at K.cmp self.now key.now }
    {
        match &self.pending {
            Some(pending) => pending.get(key),
            None => kept_at(&self.map, key),
        }
    }

    // From now on entries may come in any order, and the map is soon frozen; if there are none so far.
    pub(crate) fn load(&mut self)
        ensures { self.new ≡ self.old }
    {
        if self.pending.is_none() && self.map.is_empty() {
            self.pending = Some(Pending::empty(self.alloc));
        }
    }

    // Adds an entry of a key that is new. Want of memory leaves all as it was.
    pub(crate) fn insert(&mut self, key: K, value: V) -> Result<(), AllocError>
        requires { value_at K.cmp self.old key ≡ None }
        ensures ok { OnOk result (self.new ≡ insert_entry K.cmp self.old key value) }
        ensures err { OnErr result (self.new ≡ self.old) }
    {
        match &mut self.pending {
            Some(pending) => pending.insert(key, value),
            None => {
                self.map.insert(key, value)?;
                Ok(())
            }
        }
    }

    // Takes out the entry of a key, if there is one.
    pub(crate) fn remove(&mut self, key: &K)
        ensures { self.new ≡ remove_entry (is_at (K.cmp key.now)) self.old }
    {
        match &mut self.pending {
            Some(pending) => pending.remove(key),
            None => {
                let _ = self.map.remove(key);
            }
        }
    }

    // Whether entries may have come in any order.
    pub(crate) fn is_loaded(&self) -> bool {
        self.pending.is_some()
    }

    // Takes all entries out, in order, where they may have come in any order; else there is no memory for it. Where
    // memory doesn't suffice, they stay.
    pub(crate) fn take_sorted(&mut self) -> Result<Sorted<K, V>, AllocError>
        ensures ok { IfOk result (λ all. all ≡ self.old) }
        ensures none { OnOk result (self.new ≡ []) }
        ensures err { OnErr result (self.new ≡ self.old) }
    {
        match &mut self.pending {
            Some(pending) => pending.take_sorted(),
            None => Err(AllocError),
        }
    }

    // All entries, in order.
    pub(crate) fn all(&self) -> Rest<'_, K, V>
        ensures { result ≡ self.now }
    {
        match &self.pending {
            Some(pending) => Rest {
                added: self.map.range(..),
                pending: Some(pending.all()),
            },
            None => Rest {
                added: self.map.range(..),
                pending: None,
            },
        }
    }

    // The entries from one key on and before another, which isn't below the first, in order.
    pub(crate) fn range(&self, from: K, end: K) -> Rest<'_, K, V>
        requires { is_gt (K.cmp from end) ≡ false }
        ensures { result ≡ entries_within K.cmp is_before_end from end self.now }
    {
        match &self.pending {
            Some(pending) => Rest {
                pending: Some(pending.range(&from, &end)),
                added: self.map.range(from..end),
            },
            None => Rest {
                added: self.map.range(from..end),
                pending: None,
            },
        }
    }

    // The entries from one key up to another, which isn't below the first, in order.
    pub(crate) fn through(&self, from: K, last: K) -> Rest<'_, K, V>
        requires { is_gt (K.cmp from last) ≡ false }
        ensures { result ≡ entries_within K.cmp is_up_to_end from last self.now }
    {
        match &self.pending {
            Some(pending) => Rest {
                pending: Some(pending.through(&from, &last)),
                added: self.map.range(from..=last),
            },
            None => Rest {
                added: self.map.range(from..=last),
                pending: None,
            },
        }
    }

    // The same entries.
    pub(crate) fn try_copy(&self) -> Result<Self, AllocError>
        requires { (v w : V) → V.is_clone v w → w ≡ v }
        ensures { IfOk result (λ copy. copy ≡ self.now) }
    {
        let pending = match &self.pending {
            Some(pending) => Some(pending.try_copy()?),
            None => None,
        };
        Ok(Added {
            alloc: self.alloc,
            map: self.map.clone()?,
            pending,
        })
    }
}

// A walk over the entries that aren't frozen.
#[derive(Drop)]
pub(crate) struct Rest<'a, K: Apart, V> {
    added: Range<'a, K, V>,
    pending: Option<Scan<'a, K, V>>,
}

impl<'a, K: Apart, V> Model for Rest<'a, K, V> {
    ghost use Rattle.std.specs.Prelude.{List};
    ghost use Rattle.snb_graph_maps.specs.Ahead.{waiting};

    ghost Value = { List (K × V) };

    ghost view = { λ s. waiting s.pending s.added };
}

impl<'a, K: Apart, V> Rest<'a, K, V> {
    // Takes the first entry.
    pub(crate) fn take(&mut self) -> Option<(&'a K, &'a V)>
        ensures { TakesFirst deref_pair self.old result self.new }
    {
        match &mut self.pending {
            Some(scan) => scan.take(),
            None => self.added.next(),
        }
    }
}
