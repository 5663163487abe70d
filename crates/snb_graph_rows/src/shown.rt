//! The row of each kind of entry.

ghost use Rattle.std.specs.Prelude.{◌≡◌};
ghost use Rattle.snb_schema.specs.Layouts.{key_columns};
ghost use Rattle.snb_schema.specs.LentRows.{lent_row};
ghost use Rattle.snb_graph_rows.specs.Edges.{link_of};

use crate::keys::{EdgeKey, WordKey};
use crate::nodes::{Class, Mark};
use crate::rows::Shown;
use snb_schema::{
    Comment, Forum, KeyColumns, LentRow, Named, Organisation, Person, Place, Post, Shape,
    key_columns_of, shape_of,
};

impl Shown<u64> for Place {
    fn show<'a>(_key: &'a u64, kept: &'a Self) -> LentRow<'a> {
        LentRow::Place { place: kept }
    }
}

impl Shown<u64> for Class {
    fn show<'a>(_key: &'a u64, kept: &'a Self) -> LentRow<'a> {
        LentRow::TagClass { named: &kept.named }
    }
}

impl Shown<u64> for Named {
    fn show<'a>(_key: &'a u64, kept: &'a Self) -> LentRow<'a> {
        LentRow::Tag { named: kept }
    }
}

impl Shown<u64> for Organisation {
    fn show<'a>(_key: &'a u64, kept: &'a Self) -> LentRow<'a> {
        LentRow::Organisation { organisation: kept }
    }
}

impl Shown<u64> for Person {
    fn show<'a>(_key: &'a u64, kept: &'a Self) -> LentRow<'a> {
        LentRow::Person { person: kept }
    }
}

impl Shown<u64> for Forum {
    fn show<'a>(_key: &'a u64, kept: &'a Self) -> LentRow<'a> {
        LentRow::Forum { forum: kept }
    }
}

impl Shown<u64> for Post {
    fn show<'a>(_key: &'a u64, kept: &'a Self) -> LentRow<'a> {
        LentRow::Post { post: kept }
    }
}

impl Shown<u64> for Comment {
    fn show<'a>(_key: &'a u64, kept: &'a Self) -> LentRow<'a> {
        LentRow::Comment { comment: kept }
    }
}

// The link of a key and the other end.
fn link_row<'a>(key: &EdgeKey, other: u64) -> LentRow<'a>
    ensures { lent_row result ≡ link_of (key_columns key.now.table) key.now.table key.now.first key.now.second other }
{
    match key_columns_of(key.table) {
        KeyColumns::First => LentRow::Link {
            table: key.table,
            from: key.first,
            to: other,
        },
        KeyColumns::Second => LentRow::Link {
            table: key.table,
            from: other,
            to: key.first,
        },
        KeyColumns::FirstTwo => LentRow::Link {
            table: key.table,
            from: key.first,
            to: key.second,
        },
    }
}

impl Shown<EdgeKey> for u64 {
    fn show<'a>(key: &'a EdgeKey, kept: &'a Self) -> LentRow<'a> {
        match shape_of(key.table) {
            Shape::Dated => LentRow::Dated {
                table: key.table,
                from: key.first,
                to: key.second,
                date: *kept,
            },
            Shape::Yeared => LentRow::Yeared {
                table: key.table,
                from: key.first,
                to: key.second,
                year: *kept as u32,
            },
            Shape::Place => link_row(key, *kept),
            Shape::TagClass => link_row(key, *kept),
            Shape::Tag => link_row(key, *kept),
            Shape::Organisation => link_row(key, *kept),
            Shape::Person => link_row(key, *kept),
            Shape::Forum => link_row(key, *kept),
            Shape::Post => link_row(key, *kept),
            Shape::Comment => link_row(key, *kept),
            Shape::Link => link_row(key, *kept),
            Shape::Word => link_row(key, *kept),
        }
    }
}

impl Shown<WordKey> for Mark {
    fn show<'a>(key: &'a WordKey, _kept: &'a Self) -> LentRow<'a> {
        LentRow::Word {
            table: key.table,
            person: key.person,
            text: &key.text,
        }
    }
}
