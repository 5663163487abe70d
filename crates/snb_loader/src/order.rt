//! The files of each stage of an input, in their order.

ghost use Rattle.std.specs.Prelude.{◌≡◌, IfOk};
ghost use Rattle.snb_loader.specs.Order.{parts_of, table_series};

use snb_graph_model::tables_in_order;
use snb_input_files::Series;
use snb_schema::{Counted, FileKind, MAX_LANES, MAX_PARTS, Table, layout_of};
use std::alloc::{AllocError, Global};

// The parts of a table.
fn parts_of(table: Table) -> Series
    ensures { result ≡ parts_of table }
{
    Series {
        kind: FileKind::Table { table },
        needed: layout_of(table).is_needed,
        most: MAX_PARTS,
        what: Some(Counted::Parts),
    }
}

/// The parts of all tables.
pub fn table_series(alloc: Global) -> Result<Vec<Series>, AllocError>
    ensures { IfOk result (λ series. series.items ≡ table_series) }
{
    tables_in_order()
        .iter()
        .map(|table| parts_of(*table))
        .collect(alloc)
}

/// The person streams, of which there may be none.
pub const PERSON_STREAMS: [Series; 1] = [Series {
    kind: FileKind::PersonStream,
    needed: false,
    most: MAX_LANES,
    what: Some(Counted::Lanes),
}];

/// The forum streams, of which there may be none.
pub const FORUM_STREAMS: [Series; 1] = [Series {
    kind: FileKind::ForumStream,
    needed: false,
    most: MAX_LANES,
    what: Some(Counted::Lanes),
}];
