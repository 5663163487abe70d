//! How rows are kept as entries of a map.

ghost use Rattle.std.specs.Prelude.{◌≡◌, ◌↔◌, ℕ, IsTrue};
ghost use Rattle.snb_schema.specs.RowKeys.{RowKey};
ghost use Rattle.snb_graph_model.specs.Graphs.{key_order};
ghost use Rattle.snb_schema.specs.declared.row.Row.{Row};
ghost use Rattle.snb_schema.specs.declared.table.Table.{Table};

use snb_graph_maps::Apart;

/// A value whose clone is it, and to which no other is equal.
pub trait Exact: Clone + PartialEq + Drop {
    ghost same_clone: { (a b : Self) → Self.is_clone a b → b ≡ a };

    ghost same_value: { (a b : Self) → IsTrue (Self.eq a b) ↔ (a ≡ b) };
}

/// A key of a map: keys compare as the keys of rows do.
pub trait Key: Apart {
    /// The key of a row of the table, where the table isn't part of the key itself.
    ghost name: { Table → Self → RowKey };

    ghost ordered: { (t : Table) (a b : Self) → key_order (name t a) (name t b) ≡ Self.cmp a b };
}

/// What a map keeps of the rows of one part of a graph.
pub trait Kept: Exact {
    /// The number of the part.
    ghost part: { ℕ };

    /// The table of the rows, where the key doesn't tell it.
    ghost table: { Table };

    /// The row of a key.
    ghost as_row: { RowKey → Self → Row };
}
