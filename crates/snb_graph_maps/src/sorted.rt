//! Entries in the order of their keys, the keys in an array of their own: a search reads no values.

ghost use Rattle.std.specs.Prelude.{◌≡◌, ◌++◌, ◌∷◌, [], ℕ, ◌↔◌, IsTrue, IfOk, IfSome, Some, OnOk, OnErr, filter, length, map, not, true};
ghost use Rattle.std.specs.Option.{option_copied};
ghost use Rattle.std.specs.Ordering.{is_le, is_lt};
ghost use Rattle.std.specs.Map.{keys_of};
ghost use Rattle.std.specs.Map.Iter.{TakesFirst, deref_pair};
ghost use Rattle.std.specs.List.{zip};
ghost use Rattle.std.specs.BTreeMap.{insert_entry};
ghost use Rattle.snb_graph_maps.specs.Merged.{Rises, first_key, value_at};

use crate::hints::{group_hints, hinted, hints};
use crate::kept::Apart;
use crate::search::{end, start};
use std::alloc::{AllocError, Global};
use std::marker::Model;

/// Entries that are lent, the keys and the values in a slice each.
#[derive(Drop)]
pub(crate) struct Span<'a, K, V> {
    keys: &'a [K],
    values: &'a [V],
}

impl<'a, K, V> Model for Span<'a, K, V> {
    ghost use Rattle.std.specs.Prelude.{◌≡◌, List, length};
    ghost use Rattle.std.specs.List.{zip};

    ghost Value = { List (K × V) };

    ghost view = { λ s. zip s.keys.now s.values.now };

    ghost invariant = { λ s. length s.values.now ≡ length s.keys.now };
}

impl<'a, K: Apart, V> Span<'a, K, V> {
    // The entries of as many keys as values.
    pub(crate) fn over(keys: &'a [K], values: &'a [V]) -> Self
        requires { length values.now ≡ length keys.now }
        ensures { result ≡ zip keys.now values.now }
    {
        Span { keys, values }
    }

    // How many entries there are.
    pub(crate) fn len(&self) -> usize
        ensures { result ≡ length self.now }
    {
        let _ = &self.values;
        self.keys.len()
    }

    // The first key.
    pub(crate) fn first(&self) -> Option<&'a K>
        ensures { option_copied result ≡ first_key self.now }
    {
        let _ = &self.values;
        self.keys.first()
    }

    // Takes the first entry.
    pub(crate) fn take(&mut self) -> Option<(&'a K, &'a V)>
        ensures { TakesFirst deref_pair self.old result self.new }
    {
        match (self.keys.split_first(), self.values.split_first()) {
            (Some((key, keys)), Some((value, values))) => {
                self.keys = keys;
                self.values = values;
                Some((key, value))
            }
            _ => None,
        }
    }

    // What is kept under a key. Where keys are asked for in rising order, the last one tells that a key is new.
    pub(crate) fn find(&self, key: &K) -> Option<&'a V>
        requires { Rises K.cmp self.now }
        ensures { option_copied result ≡ value_at K.cmp self.now key.now }
    {
        if let Some(last) = self.keys.last()
            && last.cmp(key).is_lt()
        {
            return None;
        }
        match self.keys.binary_search_by(|kept| kept.cmp(key)) {
            Ok(at) => Some(&self.values[at]),
            Err(_) => None,
        }
    }

    // The entries whose keys are below one.
    pub(crate) fn before(self, key: &K) -> Self
        requires { Rises K.cmp self }
        ensures { result ≡ filter (λ e. not (is_le (K.cmp key.now e.0))) self.entry }
    {
        let at = end(self.keys, key, false);
        Span {
            keys: &self.keys[..at],
            values: &self.values[..at],
        }
    }

    // The entries whose keys aren't above one.
    pub(crate) fn through(self, key: &K) -> Self
        requires { Rises K.cmp self }
        ensures { result ≡ filter (λ e. not (is_lt (K.cmp key.now e.0))) self.entry }
    {
        let at = end(self.keys, key, true);
        Span {
            keys: &self.keys[..at],
            values: &self.values[..at],
        }
    }
}

/// Entries, the keys and the values in an array each, and hints where a key is.
pub(crate) struct Sorted<K: Apart, V: Drop> {
    alloc: Global,
    keys: Vec<K>,
    values: Vec<V>,
    slots: Vec<u32>,
    groups: Vec<u32>,
}

impl<K: Apart, V: Drop> Drop for Sorted<K, V> {
    fn drop(self) {
        let Sorted {
            alloc: _,
            keys: _,
            values: _,
            slots: _,
            groups: _,
        } = self;
    }
}

impl<K: Apart, V: Drop> Model for Sorted<K, V> {
    ghost use Rattle.std.specs.Prelude.{◌≡◌, List, length};
    ghost use Rattle.std.specs.List.{zip};

    ghost Value = { List (K × V) };

    ghost view = { λ s. zip s.keys.items s.values.items };

    ghost invariant = { λ s. length s.values.items ≡ length s.keys.items };
}

impl<K: Apart, V: Drop> Sorted<K, V> {
    // The entries of as many keys as values.
    pub(crate) fn of(alloc: Global, keys: Vec<K>, values: Vec<V>) -> Self
        requires { length values.items ≡ length keys.items }
        ensures { result ≡ zip keys.items values.items }
    {
        Sorted {
            alloc,
            keys,
            values,
            slots: Vec::new(alloc),
            groups: Vec::new(alloc),
        }
    }

    // No entries, and memory for some.
    pub(crate) fn with_room(alloc: Global, room: usize) -> Result<Self, AllocError>
        ensures { IfOk result (λ none. none ≡ []) }
    {
        let keys = Vec::with_capacity(alloc, room)?;
        let values = Vec::with_capacity(alloc, room)?;
        Ok(Sorted::of(alloc, keys, values))
    }

    // The keys.
    pub(crate) fn keys(&self) -> &[K]
        ensures { result.now ≡ keys_of self.now }
    {
        let _ = &self.values;
        self.keys.as_slice()
    }

    // The values, in the order of their keys.
    pub(crate) fn values(&self) -> &[V]
        ensures { result.now ≡ map (λ e. e.1) self.now }
    {
        let _ = &self.keys;
        self.values.as_slice()
    }

    // Makes the hints.
    pub(crate) fn hint(&mut self)
        ensures { self.new ≡ self.old }
    {
        let _ = &self.values;
        self.slots = hints(self.alloc, self.keys.as_slice());
        self.groups = group_hints(self.alloc, self.keys.as_slice());
    }

    // What is kept under a key, if the hints lead to it.
    pub(crate) fn hinted(&self, key: &K) -> Option<&V>
        requires { Rises K.cmp self.now }
        ensures { IfSome result (λ v. value_at K.cmp self.now key.now ≡ Some v.now) }
    {
        let values = self.values.as_slice();
        match hinted(self.keys.as_slice(), self.slots.as_slice(), key) {
            Some(at) => Some(&values[at]),
            None => None,
        }
    }

    // The entries whose keys aren't below one.
    pub(crate) fn since(&self, key: &K) -> Span<'_, K, V>
        requires { Rises K.cmp self.now }
        ensures { result ≡ filter (λ e. is_le (K.cmp key.now e.0)) self.now }
    {
        let keys = self.keys.as_slice();
        let values = self.values.as_slice();
        let at = start(keys, self.groups.as_slice(), key);
        Span::over(&keys[at..], &values[at..])
    }

    // Adds an entry after all others. Want of memory leaves them as they were.
    pub(crate) fn push(&mut self, key: K, value: V) -> Result<(), AllocError>
        ensures ok { OnOk result (self.new ≡ self.old ++ (key, value) ∷ []) }
        ensures err { OnErr result (self.new ≡ self.old) }
    {
        self.keys.push(key)?;
        if self.values.push(value).is_err() {
            let _ = self.keys.pop();
            return Err(AllocError);
        }
        Ok(())
    }
}
