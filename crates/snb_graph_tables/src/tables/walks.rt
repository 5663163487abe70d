//! Walks over the rows of a table.

ghost use Rattle.std.specs.Prelude.{◌≡◌, All};
ghost use Rattle.snb_schema.specs.TableRows.{IsTableRow};
ghost use Rattle.snb_graph_model.specs.Graphs.{rows};
ghost use Rattle.snb_graph_tables.specs.Left.{left_rows};

use super::Tables;
use crate::each::{Left, LentRows, TableRows};
use snb_graph_rows::{Kept, MappedRows, RowMap};
use snb_schema::Table;

// The rows of a kind of node.
fn every<V: Kept>(map: &RowMap<u64, V>) -> MappedRows<'_, u64, V>
    requires { All IsTableRow map.now.rows }
    ensures { result ≡ map.now.rows }
{
    MappedRows::over(map.all())
}

impl Tables {
    /// Copies of the rows of a table, in the order of their keys.
    pub fn each(&self, table: Table) -> TableRows<'_>
        ensures { result ≡ rows self.now.rows table }
    {
        TableRows::of(self.lent(table))
    }

    /// The rows of a table, in the order of their keys.
    pub fn lent(&self, table: Table) -> LentRows<'_>
        ensures { result ≡ rows self.now.rows table }
    {
        LentRows::over(self.left(table))
    }

    // The rows of a table.
    fn left(&self, table: Table) -> Left<'_>
        ensures { left_rows result ≡ rows self.now.rows table }
    {
        match table {
            Table::Place => Left::Place {
                rows: every(&self.places),
            },
            Table::TagClass => Left::TagClass {
                rows: every(&self.tag_classes),
            },
            Table::Tag => Left::Tag {
                rows: every(&self.tags),
            },
            Table::Organisation => Left::Organisation {
                rows: every(&self.organisations),
            },
            Table::Person => Left::Person {
                rows: every(&self.persons),
            },
            Table::Forum => Left::Forum {
                rows: every(&self.forums),
            },
            Table::Post => Left::Post {
                rows: every(&self.posts),
            },
            Table::Comment => Left::Comment {
                rows: every(&self.comments),
            },
            Table::PersonEmailEmailAddress => Left::Words {
                rows: self.each_word(table),
            },
            Table::PersonSpeaksLanguage => Left::Words {
                rows: self.each_word(table),
            },
            _ => Left::Edges {
                rows: self.each_edge(table),
            },
        }
    }
}
