//! Rows of one part of a graph, kept in an ordered map.

ghost use Rattle.std.specs.Prelude.{◌<◌, ◌^◌, ◌≡◌, ◌≤◌, ◌++◌, ◌∷◌, [], ◌↔◌, false, Contains, IsPermutation, IsTrue, IsSome, IfSome, IfOk, OnOk, OnErr, length};
ghost use Rattle.std.specs.Option.{option_copied};
ghost use Rattle.snb_graph_maps.specs.declared.layer.Layer.TheVariants as Layer;
ghost use Rattle.snb_schema.specs.declared.row.Row.{Row};
ghost use Rattle.snb_graph_model.specs.Graphs.{HasKey};
ghost use Rattle.snb_graph_rows.specs.Keyed.{IsPart};
ghost use Rattle.snb_graph_rows.specs.Rows.{entry_row, rows_by, Fits, HasLost, rows_within, is_before_end, is_up_to_end};
ghost use Rattle.std.specs.Ordering.{is_gt};

use crate::kept::{Kept, Key};
use snb_graph_maps::{Layer, LayeredMap, Walk};
use std::alloc::{AllocError, Global};
use std::marker::Model;

/// The rows of one part of a graph. A contract sees the rows, in their order, and those of them that
/// copies share: the frozen ones.
pub struct RowMap<K: Key, V: Kept> {
    store: LayeredMap<K, V>,
}

impl<K: Key, V: Kept> Drop for RowMap<K, V> {
    fn drop(self) {
        let RowMap { store: _ } = self;
    }
}

impl<K: Key, V: Kept> Model for RowMap<K, V> {
    ghost use Rattle.snb_graph_maps.specs.Merged.{all_of};
    ghost use Rattle.snb_graph_rows.specs.Rows.{entry_row, stock, Fits, AreKept, Stock};

    ghost Value = { Stock };

    ghost view = { λ s. stock K.cmp (entry_row (K.name V.table) V.as_row) s.store };

    ghost invariant = { λ s. AreKept K.cmp (Fits V.part (K.name V.table) V.as_row) (all_of K.cmp s.store) };
}

impl<K: Key, V: Kept> RowMap<K, V> {
    /// No rows. Takes no memory.
    pub fn empty(alloc: Global) -> Self
        ensures rows { result.rows ≡ [] }
        ensures frozen { result.frozen ≡ [] }
    {
        RowMap {
            store: LayeredMap::empty(alloc),
        }
    }

    /// The rows are one part of a graph, in order, and the frozen ones are among them.
    pub fn known(&self)
        ensures part { IsPart V.part self.now.rows }
        ensures among { (r : Row) → Contains self.now.frozen r → Contains self.now.rows r }
    {
        self.store.known();
    }

    /// What is kept of the row of a key.
    pub fn find(&self, key: &K) -> Option<&V>
        ensures found { IfSome (option_copied result)
            (λ v. Fits V.part (K.name V.table) V.as_row key.now v
            × Contains self.now.rows (V.as_row (K.name V.table key.now) v)) }
        ensures held { IsSome result ↔ HasKey self.now.rows (K.name V.table key.now) }
    {
        self.store.get(key)
    }

    /// Whether there is a row of the key.
    pub fn has(&self, key: &K) -> bool
        ensures { IsTrue result ↔ HasKey self.now.rows (K.name V.table key.now) }
    {
        self.store.has(key)
    }

    /// Adds a row of a key that is new, where the row has this key and is of this part; the row is frozen only if
    /// it goes into that half. Want of memory leaves the rows as they were.
    pub fn add(&mut self, key: K, value: V, half: Layer) -> Result<(), AllocError>
        requires fits { Fits V.part (K.name V.table) V.as_row key value }
        requires new { ¬ HasKey self.old.rows (K.name V.table key) }
        ensures ok { OnOk result
            (IsPermutation self.new.rows (self.old.rows ++ V.as_row (K.name V.table key) value ∷ [])) }
        ensures err { OnErr result (self.new ≡ self.old) }
        ensures frozen { half ≡ Layer.Added → self.new.frozen ≡ self.old.frozen }
        ensures more { (r : Row) → Contains self.old.frozen r → Contains self.new.frozen r }
        ensures whole { IsPart V.part self.new.rows }
    {
        self.store.add(key, value, half)?;
        Ok(())
    }

    /// Takes out the row of a key, if there is one. Takes no memory.
    /// The condition: no frozen row has the key.
    pub fn take_back(&mut self, key: &K)
        requires { ¬ HasKey self.old.frozen (K.name V.table key.now) }
        ensures lost { HasLost self.old.rows (K.name V.table key.now) self.new.rows }
        ensures none { ¬ HasKey self.old.rows (K.name V.table key.now) → self.new.rows ≡ self.old.rows }
        ensures frozen { self.new.frozen ≡ self.old.frozen }
        ensures whole { IsPart V.part self.new.rows }
    {
        self.store.known();
        self.store.take_back(key);
    }

    /// How many rows there are.
    pub fn len(&self) -> u64
        ensures count { result ≡ length self.now.rows }
        ensures few { result ≤ 1152921504606846976 }
    {
        self.store.len() as u64
    }

    /// All entries, in order. Takes no memory.
    pub fn all(&self) -> Walk<'_, K, V>
        ensures { rows_by (entry_row (K.name V.table) V.as_row) result ≡ self.now.rows }
    {
        self.store.all()
    }

    /// The entries from one key on and before another, which isn't below the first, in order. Takes no
    /// memory.
    pub fn before(&self, from: K, end: K) -> Walk<'_, K, V>
        requires { is_gt (K.cmp from end) ≡ false }
        ensures rows { rows_by (entry_row (K.name V.table) V.as_row) result
            ≡ rows_within is_before_end (K.name V.table from) (K.name V.table end) self.now.rows }
        ensures few { length result < 2 ^ 63 }
    {
        self.store.range(from, end)
    }

    /// The entries from one key up to another, which isn't below the first, in order. Takes no memory.
    pub fn through(&self, from: K, last: K) -> Walk<'_, K, V>
        requires { is_gt (K.cmp from last) ≡ false }
        ensures rows { rows_by (entry_row (K.name V.table) V.as_row) result
            ≡ rows_within is_up_to_end (K.name V.table from) (K.name V.table last) self.now.rows }
        ensures few { length result < 2 ^ 63 }
    {
        self.store.through(from, last)
    }

    /// Makes all rows frozen, so that copies share them. They stay, whatever it answers: an error says
    /// that memory doesn't suffice, and what was frozen is.
    pub fn freeze(&mut self) -> Result<(), AllocError>
        ensures rows { self.new.rows ≡ self.old.rows }
        ensures ok { OnOk result (self.new.frozen ≡ self.old.rows) }
        ensures more { (r : Row) → Contains self.old.frozen r → Contains self.new.frozen r }
    {
        self.store.known();
        self.store.freeze()?;
        Ok(())
    }

    /// A map with the same rows, which shares the frozen ones and copies the others. An error says that
    /// memory doesn't suffice.
    pub fn try_copy(&self) -> Result<Self, AllocError>
        ensures { IfOk result (λ copy. copy ≡ self.now) }
    {
        Ok(RowMap {
            store: self.store.try_copy()?,
        })
    }
}
