//! The call that applies inserts to a copy of a graph.

use crate::cases::graph_of;
use snb_graph::{Graph, Links};
use snb_inserts::{Applied, apply};
use snb_schema::{Kind, LineFault, Missing, Table, table_name};
use snb_streams::read_line;
use snb_test_script::{Files, Flaw, Lines, List, first_word, number_of};
use std::alloc::{AllocError, Global};

// The table of the nodes of this kind.
fn table_of(kind: Kind) -> Table {
    match kind {
        Kind::Place => Table::Place,
        Kind::TagClass => Table::TagClass,
        Kind::Tag => Table::Tag,
        Kind::Organisation => Table::Organisation,
        Kind::Person => Table::Person,
        Kind::Forum => Table::Forum,
        Kind::Post => Table::Post,
        Kind::Comment => Table::Comment,
    }
}

// A node that isn't held.
fn told_missing(alloc: Global, missing: Missing) -> Result<String, AllocError> {
    let name = table_name(table_of(missing.kind));
    let id = missing.id;
    format!(in alloc; "missing {name} {id}")
}

// What applying the insert of the line answers.
fn told_applied(alloc: Global, graph: &mut Graph, text: &[u8]) -> Result<String, Flaw> {
    let line = match read_line(alloc, text) {
        Ok(line) => line,
        Err(LineFault::Bad { .. }) => return Err(Flaw::OtherValue),
        Err(LineFault::Memory) => return Err(Flaw::Memory),
    };
    match apply(alloc, graph, &line.op) {
        Ok(()) => Ok(String::from_str(alloc, "applied")?),
        Err(Applied::Missing { missing }) => Ok(told_missing(alloc, missing)?),
        Err(Applied::Duplicate) => Ok(String::from_str(alloc, "duplicate")?),
        Err(Applied::Memory) => Err(Flaw::Memory),
    }
}

// Pairs of an id and a date.
fn told_pairs(alloc: Global, pairs: &[(u64, u64)]) -> Result<String, Flaw> {
    let mut list = List::new(alloc);
    for (id, date) in pairs {
        let item = format!(in alloc; "{id}|{date}")?;
        list.add(item.as_str())?;
    }
    list.told(alloc)
}

// The frozen and the added pairs of a walk, and how many rows the graph has.
fn told_links(alloc: Global, name: &str, rows: u64, links: Links<'_>) -> Result<String, Flaw> {
    let frozen = told_pairs(alloc, links.frozen())?;
    let frozen = frozen.as_str();
    let added = told_pairs(alloc, links.added())?;
    let added = added.as_str();
    Ok(format!(in alloc; "{name}: {rows} rows, frozen {frozen}, added {added}")?)
}

/// `apply_to_copy FOLDER FILE PERSON`
pub(crate) fn apply_to_copy(alloc: Global, files: &Files, rest: &str) -> Result<String, Flaw> {
    let (folder, rest) = first_word(rest);
    let (file, person) = first_word(rest);
    let person = number_of(person)?;
    let graph = graph_of(alloc, files, folder)?;
    let mut copy = graph.try_copy()?;
    let mut answer = Lines::new(alloc);
    for line in files.bytes(file)?.split(|byte| *byte == b'\n') {
        if !line.is_empty() {
            let applied = told_applied(alloc, &mut copy, line)?;
            answer.add(applied.as_str())?;
        }
    }
    let line = told_links(alloc, "copy", copy.rows(), copy.friends(person))?;
    answer.add(line.as_str())?;
    let line = told_links(alloc, "graph", graph.rows(), graph.friends(person))?;
    answer.add(line.as_str())?;
    Ok(answer.told())
}
