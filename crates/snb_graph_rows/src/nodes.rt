//! What is kept of the rows of each part.

ghost use Rattle.std.proofs.Common.{rules};
ghost use Rattle.snb_schema.specs.declared.row.Row.TheVariants as row;
ghost use Rattle.snb_schema.specs.declared.table.Table.TheVariants as tables;
ghost use Rattle.snb_graph_rows.specs.Edges.{edge_row, word_row};

use crate::kept::{Exact, Kept};
use snb_schema::{Comment, Forum, Named, Organisation, Person, Place, Post};

/// A class of tags.
#[derive(Clone, PartialEq, Eq)]
pub struct Class {
    pub named: Named,
}

impl Drop for Class {
    fn drop(self) {
        let Class { named: _ } = self;
    }
}

/// A word has nothing beside its key.
#[derive(Clone, PartialEq, Eq, Drop)]
pub struct Mark {}

impl Exact for Mark {
    ghost same_clone = { Prim.search rules };

    ghost same_value = { Prim.search rules };
}

impl Exact for u64 {
    ghost same_clone = { λ a b e. e };

    ghost same_value = { Prim.search rules };
}

impl Exact for Place {
    ghost same_clone = { Prim.search rules };

    ghost same_value = { Prim.search rules };
}

impl Kept for Place {
    ghost part = { 0 };

    ghost table = { tables.Place };

    ghost as_row = { λ k v. row.Place v };
}

impl Exact for Class {
    ghost same_clone = { Prim.search rules };

    ghost same_value = { Prim.search rules };
}

impl Kept for Class {
    ghost part = { 1 };

    ghost table = { tables.TagClass };

    ghost as_row = { λ k v. row.TagClass v.named };
}

impl Exact for Named {
    ghost same_clone = { Prim.search rules };

    ghost same_value = { Prim.search rules };
}

impl Kept for Named {
    ghost part = { 2 };

    ghost table = { tables.Tag };

    ghost as_row = { λ k v. row.Tag v };
}

impl Exact for Organisation {
    ghost same_clone = { Prim.search rules };

    ghost same_value = { Prim.search rules };
}

impl Kept for Organisation {
    ghost part = { 3 };

    ghost table = { tables.Organisation };

    ghost as_row = { λ k v. row.Organisation v };
}

impl Exact for Person {
    ghost same_clone = { Prim.search rules };

    ghost same_value = { Prim.search rules };
}

impl Kept for Person {
    ghost part = { 4 };

    ghost table = { tables.Person };

    ghost as_row = { λ k v. row.Person v };
}

impl Exact for Forum {
    ghost same_clone = { Prim.search rules };

    ghost same_value = { Prim.search rules };
}

impl Kept for Forum {
    ghost part = { 5 };

    ghost table = { tables.Forum };

    ghost as_row = { λ k v. row.Forum v };
}

impl Exact for Post {
    ghost same_clone = { Prim.search rules };

    ghost same_value = { Prim.search rules };
}

impl Kept for Post {
    ghost part = { 6 };

    ghost table = { tables.Post };

    ghost as_row = { λ k v. row.Post v };
}

impl Exact for Comment {
    ghost same_clone = { Prim.search rules };

    ghost same_value = { Prim.search rules };
}

impl Kept for Comment {
    ghost part = { 7 };

    ghost table = { tables.Comment };

    ghost as_row = { λ k v. row.Comment v };
}

/// Of an edge: its other end, its date or its year.
impl Kept for u64 {
    ghost part = { 8 };

    ghost table = { tables.PersonKnowsPerson };

    ghost as_row = { edge_row };
}

impl Kept for Mark {
    ghost part = { 9 };

    ghost table = { tables.PersonSpeaksLanguage };

    ghost as_row = { word_row };
}
