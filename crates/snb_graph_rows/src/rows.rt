//! Rows that are lent, one after another.

ghost use Rattle.std.specs.Prelude.{◌≡◌, All, length};
ghost use Rattle.std.specs.Iterator.{at_most};
ghost use Rattle.std.specs.Map.Iter.{TakesFirst};
ghost use Rattle.snb_schema.specs.LentRows.{lent_row};
ghost use Rattle.snb_schema.specs.TableRows.{IsTableRow};
ghost use Rattle.snb_graph_rows.specs.Rows.{entry_row, rows_by};

use crate::kept::{Kept, Key};
use snb_graph_maps::Walk;
use snb_schema::LentRow;
use std::marker::Model;

/// What makes a row of a key and of what is kept of it.
pub trait Shown<K: Key>: Kept {
    /// The row, which is one that its table can have.
    fn show<'a>(key: &'a K, kept: &'a Self) -> LentRow<'a>
        requires { IsTableRow (Self.as_row (K.name Self.table key.now) kept.now) }
        ensures { lent_row result ≡ Self.as_row (K.name Self.table key.entry.now) kept.entry.now };
}

/// The rows that a walk has still to give, in order.
#[derive(Drop)]
pub struct MappedRows<'a, K: Key, V: Kept> {
    left: Walk<'a, K, V>,
}

impl<'a, K: Key, V: Kept> Model for MappedRows<'a, K, V> {
    ghost use Rattle.std.specs.Prelude.{All, List};
    ghost use Rattle.snb_schema.specs.declared.row.Row.{Row};
    ghost use Rattle.snb_schema.specs.TableRows.{IsTableRow};
    ghost use Rattle.snb_graph_rows.specs.Rows.{entry_row, rows_by};

    ghost Value = { List Row };

    ghost view = { λ w. rows_by (entry_row (K.name V.table) V.as_row) w.left };

    ghost invariant = { λ w. All IsTableRow (rows_by (entry_row (K.name V.table) V.as_row) w.left) };
}

impl<'a, K: Key, V: Kept> MappedRows<'a, K, V> {
    /// A walk over entries, whose rows are ones that their tables can have.
    pub fn over(left: Walk<'a, K, V>) -> Self
        requires { All IsTableRow (rows_by (entry_row (K.name V.table) V.as_row) left) }
        ensures { result ≡ rows_by (entry_row (K.name V.table) V.as_row) left.entry }
    {
        MappedRows { left }
    }
}

impl<'a, K: Key, V: Shown<K>> Iterator for MappedRows<'a, K, V> {
    type Item = LentRow<'a>;

    ghost next_gives = { TakesFirst lent_row };

    ghost remaining = { λ s. at_most (length s) };

    fn next(&mut self) -> Option<LentRow<'a>> {
        match self.left.next() {
            Some((key, kept)) => Some(V::show(key, kept)),
            None => None,
        }
    }
}
