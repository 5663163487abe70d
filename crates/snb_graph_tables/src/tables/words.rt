//! The words among the rows of a graph.

ghost use Rattle.std.specs.Prelude.{filter, ◌+◌, ◌⊎◌, ◌≤◌, length, ◌<◌, ◌^◌, ◌≡◌, ◌↔◌, IsTrue, Contains};
ghost use Rattle.snb_schema.specs.declared.layout.Shape.TheVariants as shapes;
ghost use Rattle.snb_graph_rows.specs.Edges.{word_row};
ghost use Rattle.snb_graph_tables.specs.Words.{is_from, words_of};
ghost use Rattle.snb_graph_tables.specs.Parts.{HasGivenBack};
ghost use Rattle.snb_schema.specs.declared.row.Row.{Row};
ghost use Rattle.snb_graph_rows.specs.KeysApart.{word_name};
ghost use Rattle.snb_graph_rows.specs.Rows.{entry_row, rows_by};
ghost use Rattle.snb_graph_model.specs.Graphs.{count, part_of, rows, HasKey};
ghost use Rattle.snb_schema.specs.RowKeys.{row_key};
ghost use Rattle.snb_schema.specs.Layouts.{shape};

use super::Tables;
use crate::words::Words;
use snb_base::Text;
use snb_graph_maps::Walk;
use snb_graph_rows::{MappedRows, Mark, WordKey};
use snb_schema::Table;

// The number after one, where there is one.
fn after(id: u64) -> u64
    ensures { (result ≡ id + 1) ⊎ ((result ≡ id) × (id ≡ 18446744073709551615)) }
{
    if id == u64::MAX { id } else { id + 1 }
}

impl Tables {
    // The words of a table whose persons lie from one id on and before another, by person, then in
    // byte order.
    pub(super) fn words_of(&self, table: Table, from: u64, end: u64) -> Walk<'_, WordKey, Mark>
        requires shape { shape table ≡ shapes.Word }
        requires rises { from ≤ end }
        ensures rows { rows_by (entry_row word_name word_row) result
            ≡ filter (λ r. is_from from end (row_key r).1) (rows self.now.rows table) }
        ensures few { length result < 2 ^ 63 }
    {
        let first = WordKey {
            table,
            person: from,
            text: Text::new(self.alloc),
        };
        let last = WordKey {
            table,
            person: end,
            text: Text::new(self.alloc),
        };
        self.words.before(first, last)
    }

    /// The words of a person in a table, in byte order. Takes no memory.
    /// The condition: the table is that of emails or of languages.
    pub fn words(&self, table: Table, person: u64) -> Words<'_>
        requires { shape table ≡ shapes.Word }
        ensures { result ≡ words_of self.now.rows table person }
    {
        let _ = &self.words;
        Words::over(self.words_of(table, person, after(person)))
    }

    // How many words a table has.
    pub(super) fn count_words(&self, table: Table) -> u64
        requires { shape table ≡ shapes.Word }
        ensures { result ≡ count self.now.rows table }
    {
        let _ = &self.words;
        self.words_of(table, 0, u64::MAX).count() as u64
    }

    // The rows of a table of words.
    pub(super) fn each_word(&self, table: Table) -> MappedRows<'_, WordKey, Mark>
        requires { shape table ≡ shapes.Word }
        ensures { result ≡ rows self.now.rows table }
    {
        let _ = &self.words;
        MappedRows::over(self.words_of(table, 0, u64::MAX))
    }

    // Whether a word is held.
    pub(super) fn has_word(&self, key: &WordKey) -> bool
        requires { part_of (shape key.now.table) ≡ 9 }
        ensures { IsTrue result ↔ HasKey self.now.rows (word_name key.now) }
    {
        self.words.has(key)
    }

    // Takes out a word.
    pub(super) fn take_word(&mut self, key: WordKey)
        requires held { HasKey self.old.rows (word_name key) }
        requires free { ¬ HasKey self.old.frozen (word_name key) }
        requires word { part_of (shape key.table) ≡ 9 }
        ensures gone { (r : Row) → Contains self.old.rows r → row_key r ≡ word_name key
            → HasGivenBack self.old.rows r self.new.rows }
        ensures frozen { self.new.frozen ≡ self.old.frozen }
    {
        self.words.take_back(&key);
    }
}
