//! Edges as entries.

ghost use Rattle.std.specs.Prelude.{◌≡◌, ◌↔◌, [], ℕ, IsTrue};
ghost use Rattle.snb_schema.specs.RowKeys.{row_key};
ghost use Rattle.snb_graph_tables.specs.Twins.{twin};
ghost use Rattle.snb_schema.specs.declared.row.Row.TheVariants as row;
ghost use Rattle.snb_schema.specs.declared.layout.Shape.TheVariants as shapes;
ghost use Rattle.snb_schema.specs.Layouts.{key_columns, shape};
ghost use Rattle.snb_graph_rows.specs.Edges.{edge_row};
ghost use Rattle.snb_graph_rows.specs.KeysApart.{edge_name};
ghost use Rattle.snb_graph_model.specs.Graphs.{IsOfEdges};

use snb_graph_rows::EdgeKey;
use snb_schema::{KeyColumns, Shape, Table, key_columns_of, shape_of};

/// The key of a link, and its other end, 0 where both ends are the key.
pub fn link_entry(table: Table, from: u64, to: u64) -> (EdgeKey, u64)
    requires { shape table ≡ shapes.Link }
    ensures key { edge_name result.0 ≡ row_key (row.Link table from to) }
    ensures link { edge_row (edge_name result.0) result.1 ≡ row.Link table from to }
{
    match key_columns_of(table) {
        KeyColumns::First => (
            EdgeKey {
                table,
                first: from,
                second: 0,
            },
            to,
        ),
        KeyColumns::Second => (
            EdgeKey {
                table,
                first: to,
                second: 0,
            },
            from,
        ),
        KeyColumns::FirstTwo => (
            EdgeKey {
                table,
                first: from,
                second: to,
            },
            0,
        ),
    }
}

/// Whether two edges of one key are equal, by what each has beside it: nothing where both ends are the key
/// and there is neither date nor year.
/// The condition: the table is one of edges.
pub fn same_beside(table: Table, one: u64, other: u64) -> bool
    requires { IsOfEdges table }
    ensures { (a b : ℕ) → IsTrue result ↔ (edge_row (table, a, b, []) one ≡ edge_row (table, a, b, []) other) }
{
    match shape_of(table) {
        Shape::Link => match key_columns_of(table) {
            KeyColumns::FirstTwo => true,
            _ => one == other,
        },
        _ => one == other,
    }
}

/// The table with which this one shares its keys, if there is one.
pub fn twin_of(table: Table) -> Option<Table>
    ensures { result ≡ twin table }
{
    match table {
        Table::Post => Some(Table::Comment),
        Table::Comment => Some(Table::Post),
        Table::CommentReplyOfPost => Some(Table::CommentReplyOfComment),
        Table::CommentReplyOfComment => Some(Table::CommentReplyOfPost),
        _ => None,
    }
}
