//! The dataset of a folder.

ghost use Rattle.std.specs.Prelude.{◌≡◌, ◌≤◌, ℕ, IfOk, OnOk, OnErr};
ghost use Rattle.snb_base.specs.Reads.{IsShelfRead};
ghost use Rattle.snb_input_files.specs.Loading.{is_read_fault};
ghost use Rattle.snb_input_files.specs.Names.{Allows, IsNameIn};
ghost use Rattle.snb_schema.specs.declared.limits.TheConstants.{MAX_BYTES, MAX_ROWS};
ghost use Rattle.snb_loader.specs.Dataset.{IsDatasetAnswer, refusal_for};
ghost use Rattle.snb_loader.specs.Order.{table_series};
ghost use Rattle.snb_graph_model.specs.Soundness.{Sound};

use crate::tables::{TableGraph, load_tables, tables_are_lawful};
use snb_base::Shelf;
use snb_csv::TableLines;
use snb_graph::Graph;
use snb_graph_integrity::Unsound;
use snb_graph_model::graphs_are_their_rows;
use snb_graph_sound::Soundness;
use snb_input_files::{Load, Used, one_saying};
use snb_schema::Refusal;
use std::alloc::Global;

// Why a graph that isn't sound isn't taken.
fn refusal_of(why: Unsound) -> Load
    ensures { result ≡ refusal_for why }
{
    match why {
        Unsound::Lacks { table, id, edge } => Load::Refused {
            refusal: Refusal::Lacks { table, id, edge },
        },
        Unsound::Cycle { comment } => Load::Refused {
            refusal: Refusal::Cycle { comment },
        },
        Unsound::Memory => Load::Memory,
    }
}

/// Reads the tables of the folder, and gives their graph, which is sound; its rows are frozen, so that
/// copies share them. `used` is how much was read before, and after an Ok how much was read then.
/// `Refused` says what is wrong first: with a file or with one of its lines, in the order of tables,
/// parts and lines; or, where nothing is, `Lacks` or `Cycle`. `ReadFault` says that the shelf failed, and
/// `Memory` that memory doesn't suffice. After an error `used` is as it was.
///
/// What was read before keeps within the limits (`bytes`, `rows`), and the shelf may be asked for the parts of
/// each table in the folder, and for the one too many of each (`allowed`).
pub fn load_dataset<S: Shelf>(
    alloc: Global,
    shelf: &mut S,
    folder: &str,
    used: &mut Used,
) -> Result<Graph, Load>
    requires bytes { used.old.bytes ≤ MAX_BYTES }
    requires rows { used.old.rows ≤ MAX_ROWS }
    requires allowed { Allows (S.may shelf.old) (IsNameIn table_series folder.now) }
    ensures answer { IsDatasetAnswer (S.contents shelf.old) folder.now used.old used.new result }
    ensures sound { IfOk result Sound }
    ensures within { OnOk result ((used.new.bytes ≤ MAX_BYTES) × (used.new.rows ≤ MAX_ROWS)) }
    ensures err { OnErr result (used.new ≡ used.old) }
    ensures read { IsShelfRead (is_read_fault result) S.Shelf shelf.old shelf.new }
{
    tables_are_lawful();
    one_saying::<TableLines, TableGraph>();
    graphs_are_their_rows();
    let walk = match load_tables(alloc, shelf, folder, *used) {
        Ok(walk) => walk,
        Err(load) => return Err(load),
    };
    let now = walk.used;
    let Ok(graph) = walk.file_sink.into_graph() else {
        return Err(Load::Memory);
    };
    match graph.sound() {
        Ok(()) => {
            *used = now;
            Ok(graph)
        }
        Err(why) => Err(refusal_of(why)),
    }
}
