//! The edges among the rows of a graph.

ghost use Rattle.std.specs.Prelude.{◌≢◌, length, ◌<◌, ◌^◌, ◌≡◌, [], ◌↔◌, IsTrue, IsSome, IfSome, Contains};
ghost use Rattle.snb_schema.specs.declared.layout.KeyColumns.TheVariants as columns;
ghost use Rattle.snb_schema.specs.declared.layout.Shape.TheVariants as shapes;
ghost use Rattle.snb_graph_rows.specs.Edges.{edge_row, link_of};
ghost use Rattle.snb_graph_tables.specs.Parts.{HasGivenBack};
ghost use Rattle.snb_schema.specs.declared.row.Row.{Row};
ghost use Rattle.snb_graph_rows.specs.KeysApart.{edge_name};
ghost use Rattle.snb_graph_rows.specs.Rows.{entry_row, rows_by};
ghost use Rattle.snb_graph_model.specs.Graphs.{count, rows, HasKey, IsOfEdges};
ghost use Rattle.snb_schema.specs.RowKeys.{row_key};
ghost use Rattle.snb_schema.specs.Layouts.{key_columns, shape};

use super::Tables;
use crate::links::same_beside;
use snb_graph_maps::Walk;
use snb_graph_rows::{EdgeKey, MappedRows};
use snb_schema::Table;

impl Tables {
    /// What the edge of this key has beside its key: the other end, the date or the year.
    /// The condition: the table is one of edges.
    pub fn edge(&self, table: Table, first: u64, second: u64) -> Option<u64>
        requires { IsOfEdges table }
        ensures found { IfSome result
            (λ n. (row_key (edge_row (table, first, second, []) n) ≡ (table, first, second, []))
            × Contains self.now.rows (edge_row (table, first, second, []) n)) }
        ensures held { IsSome result ↔ HasKey self.now.rows (table, first, second, []) }
    {
        self.edges
            .find(&EdgeKey {
                table,
                first,
                second,
            })
            .copied()
    }

    /// The other end of the edge of this id, in a table whose key is one id.
    /// The conditions: the table is one of edges without dates and years, and its key is one id.
    pub fn one(&self, table: Table, id: u64) -> Option<u64>
        requires shape { shape table ≡ shapes.Link }
        requires one_id { key_columns table ≢ columns.FirstTwo }
        ensures found { IfSome result (λ other. Contains self.now.rows (link_of (key_columns table) table id 0 other)) }
        ensures held { IsSome result ↔ HasKey self.now.rows (table, id, 0, []) }
    {
        self.edge(table, id, 0)
    }

    /// The edges of a table with what each has beside its key, in the order of their keys. Takes no memory.
    /// The condition: the table is one of edges.
    pub fn edges_of(&self, table: Table) -> Walk<'_, EdgeKey, u64>
        requires { IsOfEdges table }
        ensures rows { rows_by (entry_row edge_name edge_row) result ≡ rows self.now.rows table }
        ensures few { length result < 2 ^ 63 }
    {
        let from = EdgeKey {
            table,
            first: 0,
            second: 0,
        };
        let last = EdgeKey {
            table,
            first: u64::MAX,
            second: u64::MAX,
        };
        self.edges.through(from, last)
    }

    // How many edges a table has.
    pub(super) fn count_edges(&self, table: Table) -> u64
        requires { IsOfEdges table }
        ensures { result ≡ count self.now.rows table }
    {
        self.edges_of(table).count() as u64
    }

    // The rows of a table of edges.
    pub(super) fn each_edge(&self, table: Table) -> MappedRows<'_, EdgeKey, u64>
        requires { IsOfEdges table }
        ensures { result ≡ rows self.now.rows table }
    {
        let _ = &self.edges;
        MappedRows::over(self.edges_of(table))
    }

    // Whether an edge of the table has the key.
    pub(super) fn has_edge(&self, table: Table, first: u64, second: u64) -> bool
        requires { IsOfEdges table }
        ensures { IsTrue result ↔ HasKey self.now.rows (table, first, second, []) }
    {
        self.edges.has(&EdgeKey {
            table,
            first,
            second,
        })
    }

    // Whether this edge is held, with what it has beside its key.
    pub(super) fn has_this_edge(&self, table: Table, first: u64, second: u64, beside: u64) -> bool
        requires edge { IsOfEdges table }
        requires keyed { row_key (edge_row (table, first, second, []) beside) ≡ (table, first, second, []) }
        ensures { IsTrue result ↔ Contains self.now.rows (edge_row (table, first, second, []) beside) }
    {
        self.known();
        match self.edge(table, first, second) {
            Some(held) => same_beside(table, held, beside),
            None => false,
        }
    }

    // Takes out the edge of a key.
    pub(super) fn take_edge(&mut self, key: EdgeKey)
        requires held { HasKey self.old.rows (edge_name key) }
        requires free { ¬ HasKey self.old.frozen (edge_name key) }
        requires edge { IsOfEdges key.table }
        ensures gone { (r : Row) → Contains self.old.rows r → row_key r ≡ edge_name key
            → HasGivenBack self.old.rows r self.new.rows }
        ensures frozen { self.new.frozen ≡ self.old.frozen }
    {
        self.edges.take_back(&key);
    }
}
