//! The references of a row whose nodes aren't held.

ghost use Rattle.std.specs.Prelude.{◌≡◌, ◌++◌, ◌↔◌, true, IsTrue};
ghost use Rattle.snb_schema.specs.References.{edge_refs, end_ref, from_kind, refs_of_row, to_kind};
ghost use Rattle.snb_loader.specs.Tables.{FindsLacking, may_repeat};

use snb_graph_tables::Tables;
use snb_schema::{Held, Key, Kind, Row, Table, layout_of};

// The kind of node that the first id of a table's rows refers to.
fn from_kind(table: Table) -> Option<Kind>
    ensures { result ≡ from_kind table }
{
    layout_of(table).from_kind
}

// The kind of node that the second column of a table refers to.
fn to_kind(table: Table) -> Option<Kind>
    ensures { result ≡ to_kind table }
{
    layout_of(table).to_kind
}

// The column, where the node to which it refers isn't held.
fn lacking_end(tables: &Tables, column: u32, kind: Option<Kind>, id: u64) -> Option<u32>
    ensures { FindsLacking tables.now.rows (end_ref column kind id) result }
{
    match kind {
        None => None,
        Some(kind) => {
            if tables.has(&Key::Node { kind, id }) {
                None
            } else {
                Some(column)
            }
        }
    }
}

// The first of the columns 1 and 2 that refers to a node that isn't held.
fn lacking_of_two(
    tables: &Tables,
    first: Option<Kind>,
    one: u64,
    second: Option<Kind>,
    other: u64,
) -> Option<u32>
    ensures { FindsLacking tables.now.rows (end_ref 1 first one ++ end_ref 2 second other) result }
{
    match lacking_end(tables, 1, first, one) {
        Some(column) => Some(column),
        None => lacking_end(tables, 2, second, other),
    }
}

// The first column of an edge's line that refers to a node that isn't held.
fn lacking_of_edge(tables: &Tables, table: Table, from: u64, to: u64, turned: bool) -> Option<u32>
    ensures { FindsLacking tables.now.rows (edge_refs table from to turned) result }
{
    if turned {
        lacking_of_two(tables, to_kind(table), to, from_kind(table), from)
    } else {
        lacking_of_two(tables, from_kind(table), from, to_kind(table), to)
    }
}

/// The first column of a row's line that refers to a node that isn't held; none where all are. A
/// line may have the ends of its row the other way round.
pub fn first_lacking(tables: &Tables, row: &Row, turned: bool) -> Option<u32>
    ensures { FindsLacking tables.now.rows (refs_of_row row.now turned) result }
{
    match row {
        Row::Link { table, from, to } => lacking_of_edge(tables, *table, *from, *to, turned),
        Row::Dated {
            table,
            from,
            to,
            ..
        } => lacking_of_edge(tables, *table, *from, *to, turned),
        Row::Yeared {
            table,
            from,
            to,
            ..
        } => lacking_of_edge(tables, *table, *from, *to, turned),
        Row::Word { table, person, .. } => lacking_end(tables, 1, from_kind(*table), *person),
        _ => None,
    }
}

/// Whether a line may repeat the row: an edge or a word, and not a node.
pub fn may_repeat(row: &Row) -> bool
    ensures { result ≡ may_repeat row.now }
{
    match row {
        Row::Link { .. } | Row::Dated { .. } | Row::Yeared { .. } | Row::Word { .. } => true,
        _ => false,
    }
}
