//! As many edges as nodes that must have them.

ghost use Rattle.std.specs.Prelude.{◌≡◌, ◌↔◌, IsTrue};
ghost use Rattle.snb_graph_integrity.specs.Counts.{AreFull, IsFull, edge_count};
ghost use Rattle.snb_graph_model.specs.Graphs.{count};

use crate::edges::required_of;
use snb_graph_model::tables_in_order;
use snb_graph_tables::Tables;
use snb_schema::Table;

// Whether there are as many edges of a table as nodes of another.
fn are_as_many(tables: &Tables, node: Table, edge: Table) -> bool
    ensures { IsTrue result ↔ (edge_count tables.now.rows edge ≡ count tables.now.rows node) }
{
    let nodes = tables.count(node);
    let edges = tables.count(edge);
    match edge {
        Table::CommentReplyOfPost => {
            edges <= nodes && nodes - edges == tables.count(Table::CommentReplyOfComment)
        }
        _ => edges == nodes,
    }
}

// Whether there are as many of each edge that the nodes of a table must have as there are nodes.
fn is_full(tables: &Tables, node: Table) -> bool
    ensures { IsTrue result ↔ IsFull tables.now.rows node }
{
    for edge in required_of(node) {
        if !are_as_many(tables, node, *edge) {
            return false;
        }
    }
    true
}

// Whether there are as many of each edge as nodes that must have it.
pub(crate) fn are_full(tables: &Tables) -> bool
    ensures { IsTrue result ↔ AreFull tables.now.rows }
{
    for node in tables_in_order() {
        if !is_full(tables, *node) {
            return false;
        }
    }
    true
}
