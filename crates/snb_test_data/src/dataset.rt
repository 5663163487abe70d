//! A dataset of persons who know each other.

ghost use Rattle.std.specs.Prelude.{IfOk};
ghost use Rattle.snb_graph_model.specs.Soundness.{Sound};

use snb_base::MemoryShelf;
use snb_graph::Graph;
use snb_graph_model::tables_in_order;
use snb_input_files::{Load, Used};
use snb_loader::load_dataset;
use snb_schema::{Table, columns_of, table_name};
use snb_test_script::{Flaw, add_file};
use std::alloc::{AllocError, Global};

// The folder of the dataset on its shelf.
const FOLDER: &str = "g";

/// The lines of the tables that aren't empty.
pub struct Dataset {
    persons: String,
    cities: String,
    friends: String,
}

impl Drop for Dataset {
    fn drop(self) {
        let Dataset {
            persons: _,
            cities: _,
            friends: _,
        } = self;
    }
}

impl Dataset {
    /// Without a person.
    pub fn new(alloc: Global) -> Dataset {
        Dataset {
            persons: String::new(alloc),
            cities: String::new(alloc),
            friends: String::new(alloc),
        }
    }

    /// Adds a person who lives in the one place that there is.
    pub fn add_person(&mut self, id: u64) -> Result<(), AllocError> {
        write!(
            &mut self.persons,
            "{id}|Ann|Lee|female|0|1000|1.1.1.1|Firefox\n"
        )?;
        write!(&mut self.cities, "{id}|0\n")
    }

    /// Adds a friendship.
    pub fn add_friends(&mut self, one: u64, other: u64) -> Result<(), AllocError> {
        write!(&mut self.friends, "{one}|{other}|3000\n")
    }

    // The lines of a table.
    fn lines(&self, table: Table) -> &str {
        match table {
            Table::Place => "0|Town|u|city\n",
            Table::Person => self.persons.as_str(),
            Table::PersonIsLocatedInPlace => self.cities.as_str(),
            Table::PersonKnowsPerson => self.friends.as_str(),
            _ => "",
        }
    }
}

// The file of a table: a header of its columns, and the lines.
fn file_text(alloc: Global, table: Table, lines: &str) -> Result<String, AllocError> {
    let mut text = String::new(alloc);
    for _ in 1..columns_of(table).len() {
        text.push('|')?;
    }
    text.push('\n')?;
    text.push_str(lines)?;
    Ok(text)
}

// Adds the file of a table, which has these lines below its header.
fn add_table(
    alloc: Global,
    shelf: &mut MemoryShelf,
    table: Table,
    lines: &str,
) -> Result<(), Flaw> {
    let name = table_name(table);
    let path = format!(in alloc; "{FOLDER}/{name}_0_0.csv")?;
    let text = file_text(alloc, table, lines)?;
    add_file(shelf, path.as_str(), text.as_bytes())
}

// The files of the dataset.
fn shelf_of(alloc: Global, dataset: &Dataset) -> Result<MemoryShelf, Flaw> {
    let mut shelf = MemoryShelf::new(alloc);
    for table in tables_in_order() {
        add_table(alloc, &mut shelf, *table, dataset.lines(*table))?;
    }
    Ok(shelf)
}

/// The graph of the dataset.
pub fn graph_of(alloc: Global, dataset: &Dataset) -> Result<Graph, Flaw>
    ensures { IfOk result Sound }
{
    let mut shelf = shelf_of(alloc, dataset)?;
    let mut used = Used { bytes: 0, rows: 0 };
    match load_dataset(alloc, &mut shelf, FOLDER, &mut used) {
        Ok(graph) => Ok(graph),
        Err(Load::Memory) => Err(Flaw::Memory),
        Err(Load::ReadFault) => Err(Flaw::ReadFault),
        Err(Load::Refused { .. }) => Err(Flaw::Unsound),
    }
}
