//! The keys of the maps.

ghost use Rattle.std.proofs.Common.{rules};
ghost use Rattle.std.specs.Cmp.Rules.{hashing};
ghost use Rattle.std.specs.Prelude.{◌++◌};
ghost use Rattle.std.specs.Hash as fed;

use crate::kept::Key;
use snb_base::Text;
use snb_graph_maps::Apart;
use snb_schema::Table;
use std::hash::{Hash, Hasher};

impl Key for u64 {
    ghost use Rattle.snb_graph_rows.specs.KeysApart.{id_name, id_order};

    ghost name = { id_name };

    ghost ordered = { id_order };
}

/// The key of an edge: its table and the ids of its key columns, 0 where there is no second.
#[derive(Clone, Copy, PartialEq, Eq, PartialOrd, Ord)]
pub struct EdgeKey {
    pub table: Table,
    pub first: u64,
    pub second: u64,
}

/// The key of a person's email or language: its table, the person and the text.
#[derive(PartialEq, Eq, PartialOrd, Ord, Clone)]
pub struct WordKey {
    pub table: Table,
    pub person: u64,
    pub text: Text,
}

impl Drop for WordKey {
    fn drop(self) {
        let WordKey {
            table: _,
            person: _,
            text: _,
        } = self;
    }
}

// Odd, and its bits are in no order: 2 to the 64 by the golden ratio.
const SPREAD: u64 = 11400714819323198485;

impl Hash for EdgeKey {
    ghost use Rattle.std.specs.Hash as fed;
    ghost use Rattle.snb_graph_rows.specs.Mixed.{mixed};

    ghost hash_input = { λ a. fed.u64 (mixed a) };

    ghost use Rattle.std.proofs.Common.{rules};
    ghost use Rattle.std.specs.Cmp.Rules.{hashing};

    ghost respects_eq = { Prim.search (hashing, rules) };

    fn hash<H: Hasher>(&self, state: &mut H) {
        let mixed = self
            .first
            .wrapping_mul(SPREAD)
            .wrapping_add(self.second)
            .wrapping_add(self.table as u64);
        mixed.hash(state);
    }
}

impl Hash for WordKey {
    ghost hash_input = { λ a. fed.u64 a.person ++ fed.str a.text };

    ghost respects_eq = { Prim.search (hashing, rules) };

    fn hash<H: Hasher>(&self, state: &mut H) {
        self.person.hash(state);
        self.text.as_str().hash(state);
    }
}

impl Apart for EdgeKey {
    ghost use Rattle.snb_graph_rows.specs.KeysApart.{edge_exact};

    ghost same_clone = { λ a b e. e };

    ghost same_key = { edge_exact };

    fn number(&self) -> u64 {
        self.first
            .wrapping_mul(SPREAD)
            .wrapping_add(self.second)
            .wrapping_add(self.table as u64)
    }

    fn group(&self) -> u64 {
        self.first
            .wrapping_mul(SPREAD)
            .wrapping_add(self.table as u64)
    }
}

impl Key for EdgeKey {
    ghost use Rattle.snb_graph_rows.specs.KeysApart.{edge_name, edge_order};

    ghost name = { λ t k. edge_name k };

    ghost ordered = { λ t j k. edge_order j k };
}

impl Apart for WordKey {
    ghost use Rattle.snb_graph_rows.specs.KeysApart.{word_exact};

    ghost same_clone = { Prim.search rules };

    ghost same_key = { word_exact };

    fn number(&self) -> u64 {
        self.person
            .wrapping_mul(SPREAD)
            .wrapping_add(self.table as u64)
    }

    fn group(&self) -> u64 {
        self.number()
    }
}

impl Key for WordKey {
    ghost use Rattle.snb_graph_rows.specs.KeysApart.{word_name, word_order};

    ghost name = { λ t k. word_name k };

    ghost ordered = { λ t j k. word_order j k };
}
