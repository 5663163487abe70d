//! The tables of a dataset, read into a graph.

ghost use Rattle.std.specs.Prelude.{◌≡◌, ◌≤◌, [], OnErr, OnOk, IfOk, Some};
ghost use Rattle.snb_base.specs.Reads.{IsShelfRead};
ghost use Rattle.snb_input_files.specs.Format.{Lawful};
ghost use Rattle.snb_input_files.specs.Loading.{is_read_fault};
ghost use Rattle.snb_input_files.specs.Names.{Allows, IsNameIn};
ghost use Rattle.snb_input_files.specs.Stages.{IsStage, IsWalkWithin, before};
ghost use Rattle.snb_schema.specs.declared.limits.TheConstants.{MAX_BYTES, MAX_ROWS};
ghost use Rattle.snb_schema.specs.Faults.{OnBad};
ghost use Rattle.snb_schema.specs.TableRows.{IsTableRow};
ghost use Rattle.snb_loader.specs.Order.{table_series};
ghost use Rattle.snb_loader.specs.Tables.{HasTaken, IsHeard, IsSecond, IsTableFileSink, may_repeat, table_format};

use crate::lacking::{first_lacking, may_repeat};
use crate::order::table_series;
use snb_base::Shelf;
use snb_csv::{TableLines, one_column, one_row, rows_of_fields_fit};
use snb_graph::Graph;
use snb_graph_maps::Layer;
use snb_graph_tables::{Entry, Tables};
use snb_input_files::{FileSink, Load, Used, Walk, walk_stage};
use snb_input_lines::Sink;
use snb_schema::{Fault, FileId, MAX_ROWS, Placed, Refusal, Row};
use std::alloc::{AllocError, Global};
use std::marker::Model;

/// The rows so far, which wait for their graph. A line that repeats an edge or a word changes nothing.
pub struct TableGraph {
    alloc: Global,
    tables: Tables,
}

impl Drop for TableGraph {
    fn drop(self) {
        let TableGraph {
            alloc: _,
            tables: _,
        } = self;
    }
}

impl Model for TableGraph {
    ghost use Rattle.std.specs.Prelude.{List};
    ghost use Rattle.snb_schema.specs.declared.row.Row.{Row};

    ghost Value = { List Row };

    ghost view = { λ s. s.tables.rows };
}

impl TableGraph {
    /// No rows. Takes no memory.
    pub fn new(alloc: Global) -> TableGraph
        ensures { result ≡ [] }
    {
        TableGraph {
            alloc,
            tables: Tables::empty(alloc),
        }
    }

    /// The graph of the rows, all of them frozen. An error says that memory doesn't suffice.
    pub fn into_graph(self) -> Result<Graph, AllocError>
        ensures { IfOk result (λ graph. graph ≡ self) }
    {
        let TableGraph { alloc, tables } = self;
        Graph::of(alloc, tables)
    }

    // Adds a row, unless it repeats an edge or a word. `Bad` says that a row has its slot, which it
    // doesn't repeat.
    fn put_row(&mut self, file: FileId, line: u32, row: Row) -> Result<(), Fault>
        requires { IsTableRow row }
        ensures ok { OnOk result (HasTaken self.old row self.new) }
        ensures bad { OnBad result (λ r. IsSecond self.old row × (r ≡ Refusal.Duplicate file line)) }
        ensures same { OnErr result (self.new ≡ self.old) }
    {
        let repeats = may_repeat(&row);
        let entry = Entry::of(row);
        if self.tables.holds(&entry) {
            if repeats && self.tables.has_same(&entry) {
                return Ok(());
            }
            return Err(Fault::Bad {
                refusal: Refusal::Duplicate { file, line },
            });
        }
        match self.tables.put(entry, Layer::Frozen) {
            Ok(()) => Ok(()),
            Err(_) => Err(Fault::Memory),
        }
    }
}

impl Sink<Placed> for TableGraph {
    ghost use Rattle.std.specs.Prelude.{refl};
    ghost use Rattle.snb_loader.specs.Tables.{table_sink};

    ghost meaning = { table_sink };

    fn put(&mut self, file: FileId, item: Placed) -> Result<(), Fault> {
        let line = item.line;
        match first_lacking(&self.tables, &item.row, item.turned) {
            Some(column) => Err(Fault::Bad {
                refusal: Refusal::Dangling { file, line, column },
            }),
            None => self.put_row(file, line, item.row),
        }
    }

    fn at_end(&self, _file: FileId) -> Option<Refusal> {
        None
    }

    fn next_file(&mut self) -> Result<(), AllocError> {
        Ok(())
    }

    ghost same_self = { λ _. refl };
}

impl FileSink<TableLines> for TableGraph {
    ghost use Rattle.snb_input_files.specs.Format.{stage_by};
    ghost use Rattle.snb_loader.specs.Tables.{IsHeard, table_rules};

    ghost stage = { stage_by (λ file. file.kind) table_rules IsHeard };

    fn grammar(&self, file: FileId) -> TableLines {
        TableLines::new(self.alloc, file.kind)
    }

    fn most(&self) -> Option<u64> {
        Some(MAX_ROWS)
    }
}

/// The graph is a sink of the files of tables. A line says one row at most, which is one that tables can
/// have, and is refused in one way at most.
pub(crate) fn tables_are_lawful()
    ensures lawful { Lawful table_format }
    ensures right { IsTableFileSink }
{
    one_row();
    one_column();
    rows_of_fields_fit();
}

/// Reads the tables of the folder into a graph, after so many bytes and data lines. `Refused` says
/// what is wrong first with the files: whether the graph is sound isn't asked. `ReadFault` says that
/// the shelf failed, and `Memory` that memory doesn't suffice.
///
/// What was read before keeps within the limits (`bytes`, `rows`), and the shelf may be asked for the parts of
/// each table in the folder, and for the one too many of each (`allowed`).
pub fn load_tables<S: Shelf>(
    alloc: Global,
    shelf: &mut S,
    folder: &str,
    used: Used,
) -> Result<Walk<TableGraph>, Load>
    requires bytes { used.bytes ≤ MAX_BYTES }
    requires rows { used.rows ≤ MAX_ROWS }
    requires allowed { Allows (S.may shelf.old) (IsNameIn table_series folder.now) }
    ensures answer { IsStage table_format IsHeard (S.contents shelf.old) folder.now table_series (before used) result }
    ensures within { IfOk result (IsWalkWithin (Some MAX_ROWS)) }
    ensures read { IsShelfRead (is_read_fault result) S.Shelf shelf.old shelf.new }
{
    tables_are_lawful();
    let series = table_series(alloc)?;
    walk_stage::<S, TableLines, TableGraph>(
        alloc,
        shelf,
        folder,
        &series,
        used,
        TableGraph::new(alloc),
    )
}
