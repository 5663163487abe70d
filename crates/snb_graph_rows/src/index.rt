//! Pairs of an id and a date for each id, by rising id.

ghost use Rattle.std.specs.Prelude.{◌≡◌, ◌≢◌, ℕ, List, [], ◌↔◌, ◌⊎◌, ◌<◌, Contains, IsTrue, IfOk, OnOk, OnErr};
ghost use Rattle.std.specs.Map.{keys_of};
ghost use Rattle.snb_graph_rows.specs.Pairs.{HasPair, HasAdded, HasDropped, ArePairsOf};

use std::alloc::{AllocError, Global};
use std::collections::BTreeMap;
use std::collections::btree_map::Range;
use std::marker::Model;

/// Pairs of an id and a date for each id.
pub struct Index {
    map: BTreeMap<(u64, u64), u64>,
}

impl Drop for Index {
    fn drop(self) {
        let Index { map: _ } = self;
    }
}

impl Model for Index {
    ghost use Rattle.std.specs.Prelude.{ℕ, List};
    ghost use Rattle.snb_graph_rows.specs.Pairs.{IsIndex};

    ghost Value = { List ((ℕ × ℕ) × ℕ) };

    ghost view = { λ s. s.map.entries };

    ghost invariant = { λ s. IsIndex s.map.entries };
}

impl Index {
    /// No pairs. Takes no memory.
    pub fn empty(alloc: Global) -> Self
        ensures { result ≡ [] }
    {
        Index {
            map: BTreeMap::new(alloc),
        }
    }

    /// Whether an id has a pair with this id.
    pub fn has(&self, of: u64, id: u64) -> bool
        ensures { IsTrue result ↔ ((d : ℕ) × HasPair self.now of id d) }
    {
        self.map.contains_key(&(of, id))
    }

    /// Adds a pair to those of an id, which has none with this id. Want of memory leaves all as it was.
    pub fn add(&mut self, of: u64, id: u64, date: u64) -> Result<(), AllocError>
        requires { (d : ℕ) → ¬ HasPair self.old of id d }
        ensures ok { OnOk result (HasAdded self.old of id date self.new) }
        ensures err { OnErr result (self.new ≡ self.old) }
    {
        self.map.insert((of, id), date)?;
        Ok(())
    }

    /// Takes out the pair of an id and an id, if there is one.
    pub fn drop_pair(&mut self, of: u64, id: u64)
        ensures { HasDropped self.old of id self.new }
    {
        let _ = self.map.remove(&(of, id));
    }

    /// The pairs of an id, by rising id. Takes no memory.
    pub fn pairs(&self, of: u64) -> Range<'_, (u64, u64), u64>
        ensures { ArePairsOf self.now of result }
    {
        self.map.range((of, 0)..=(of, u64::MAX))
    }

    /// An index with the same pairs.
    pub fn try_copy(&self) -> Result<Self, AllocError>
        ensures { IfOk result (λ copy. copy ≡ self.now) }
    {
        Ok(Index {
            map: self.map.clone()?,
        })
    }
}
