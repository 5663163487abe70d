//! The final graph as text.

ghost use Rattle.std.specs.Prelude.{◌≡◌, ◌++◌, IfOk, OnOk};
ghost use Rattle.std.specs.List.{flat_map};
ghost use Rattle.snb_graph_model.specs.FinalText.{final_text, row_line, section};
ghost use Rattle.snb_graph_model.specs.Graphs.{rows};
ghost use Rattle.snb_schema.specs.LentRows.{lent_row};

use snb_csv::write_lent;
use snb_graph::Graph;
use snb_graph_model::tables_in_order;
use snb_schema::{LentRow, Table, table_name};
use std::alloc::{AllocError, Global};

// Appends a row's line.
fn put_row(row: LentRow<'_>, to: &mut Vec<u8>) -> Result<(), AllocError>
    ensures { OnOk result (to.new.items ≡ to.old.items ++ row_line (lent_row row.entry)) }
{
    write_lent(row, to)
}

// Appends the lines of a table's rows.
fn put_rows(graph: &Graph, table: Table, to: &mut Vec<u8>) -> Result<(), AllocError>
    ensures { OnOk result (to.new.items ≡ to.old.items ++ flat_map row_line (rows graph.now table)) }
{
    for row in graph.lent(table) {
        put_row(row, to)?;
    }
    Ok(())
}

// Appends a table's section: its name and count, and the lines of its rows.
fn put_section(graph: &Graph, table: Table, to: &mut Vec<u8>) -> Result<(), AllocError>
    ensures { OnOk result (to.new.items ≡ to.old.items ++ section graph.now table) }
{
    let name = table_name(table);
    let count = graph.count(table);
    let head = format!(in *to.allocator(); "{name}|{count}\n")?;
    to.extend_from_slice(head.as_bytes())?;
    put_rows(graph, table, to)
}

/// The final text of the graph.
pub fn final_lines(alloc: Global, graph: &Graph) -> Result<Vec<u8>, AllocError>
    ensures { IfOk result (λ text. text.items ≡ final_text graph.now) }
{
    let mut text = Vec::from_slice(alloc, b"final|1\n")?;
    for table in tables_in_order() {
        put_section(graph, *table, &mut text)?;
    }
    Ok(text)
}
