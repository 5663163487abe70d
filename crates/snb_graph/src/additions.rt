//! Rows that are added to a graph with their links, and taken out again.

ghost use Rattle.std.specs.Prelude.{◌≡◌, ◌++◌, ◌∷◌, [], ◌↔◌, All, Err, IsTrue, List, OnErr, OnOk};
ghost use Rattle.snb_graph_maps.specs.declared.layer.Layer.TheVariants as Layer;
ghost use Rattle.snb_schema.specs.declared.row.Row.{Row};
ghost use Rattle.snb_schema.specs.RowKeys.{slot_of};
ghost use Rattle.snb_schema.specs.TableRows.{IsTableRow};
ghost use Rattle.snb_graph_adjacency.specs.LinkDelta.{IsAlone, IsLinkDelta};
ghost use Rattle.snb_graph_model.specs.Graphs.{HasGained, HasSlot, IsGraph};
ghost use Rattle.snb_graph_tables.specs.declared.insert.Insert.TheVariants as Insert;
ghost use Rattle.snb_graph_tables.specs.Entries.{IsEntry, row_of};
ghost use Rattle.snb_graph.specs.declared.additions.Noted.{Noted};
ghost use Rattle.snb_graph.specs.Additions.{AreNew, HasClash, IsFirstAlone, HasMoved, HasNote, HasTaken, HoldsAll, IsKept, IsNoteOf, Lead};

use snb_graph_adjacency::{Indexes, LinkDelta, delta_of, lone_delta};
use snb_graph_maps::Layer;
use snb_graph_model::graphs_are_their_rows;
use snb_graph_tables::{Entry, Insert, RowName, Tables};
use snb_schema::Row;
use std::alloc::AllocError;

/// What takes a row that was added out again: its name, and what it made of the links.
#[derive(Drop)]
pub(crate) struct Noted {
    name: RowName,
    delta: LinkDelta,
}

// Adds a row whose slot is free, with its links. Want of memory leaves the rows as they were.
fn put_linked(
    tables: &mut Tables,
    links: &mut Indexes,
    entry: Entry,
    delta: LinkDelta,
    half: Layer,
) -> Result<(), AllocError>
    requires fits { IsEntry entry }
    requires free { ¬ HasSlot tables.old.rows (slot_of (row_of entry)) }
    requires says { IsLinkDelta tables.old.rows (row_of entry) delta }
    requires kept { IsKept tables.old links.old }
    ensures ok { OnOk result (HasGained tables.old.rows (row_of entry ∷ []) tables.new.rows) }
    ensures err { OnErr result (tables.new.rows ≡ tables.old.rows) }
    ensures frozen { half ≡ Layer.Added → tables.new.frozen ≡ tables.old.frozen }
    ensures kept { IsKept tables.new links.new }
{
    links.known();
    if links.add_delta(delta).is_err() {
        return Err(AllocError);
    }
    if tables.put(entry, half).is_err() {
        links.drop_delta(delta);
        return Err(AllocError);
    }
    Ok(())
}

/// Adds a row with its links; it is frozen only if it goes into that half. `Duplicate` says that a row of its slot is
/// held, and `Memory` that memory doesn't suffice. After either the rows are as they were. It doesn't look at
/// references.
/// The condition: the row is one that its table can have.
pub(crate) fn insert(
    tables: &mut Tables,
    links: &mut Indexes,
    row: Row,
    half: Layer,
) -> Result<(), Insert>
    requires shaped { IsTableRow row }
    requires kept { IsKept tables.old links.old }
    ensures ok { OnOk result (HasGained tables.old.rows (row ∷ []) tables.new.rows) }
    ensures duplicate { (result ≡ Err Insert.Duplicate) ↔ HasSlot tables.old.rows (slot_of row) }
    ensures err { OnErr result (tables.new.rows ≡ tables.old.rows) }
    ensures frozen { half ≡ Layer.Added → tables.new.frozen ≡ tables.old.frozen }
    ensures kept { IsKept tables.new links.new }
{
    let delta = delta_of(tables, &row);
    let entry = Entry::of(row);
    if tables.holds(&entry) {
        return Err(Insert::Duplicate);
    }
    match put_linked(tables, links, entry, delta, half) {
        Ok(()) => Ok(()),
        Err(_) => Err(Insert::Memory),
    }
}

// Notes a row. Want of memory leaves the notes as they were.
fn note(added: &mut Vec<Noted>, entry: &Entry, delta: LinkDelta) -> Result<(), AllocError>
    requires { IsEntry entry.now }
    ensures ok { OnOk result (HasNote (row_of entry.now) delta added.old.items added.new.items) }
    ensures err { OnErr result (added.new.items ≡ added.old.items) }
{
    let name = entry.name()?;
    added.push(Noted { name, delta })?;
    Ok(())
}

// Takes the last note off a list.
fn forget(added: &mut Vec<Noted>)
    ensures { (front : List Noted) (last : Noted) → added.old.items ≡ front ++ last ∷ [] → added.new.items ≡ front }
{
    let _ = added.pop();
}

// Adds a row whose slot is free and notes it. Where that fails, rows and notes are as they were.
fn put_noted(
    tables: &mut Tables,
    links: &mut Indexes,
    entry: Entry,
    delta: LinkDelta,
    added: &mut Vec<Noted>,
) -> Result<(), AllocError>
    requires fits { IsEntry entry }
    requires free { ¬ HasSlot tables.old.rows (slot_of (row_of entry)) }
    requires says { IsLinkDelta tables.old.rows (row_of entry) delta }
    requires kept { IsKept tables.old links.old }
    ensures moved { HasMoved tables.old (row_of entry) result tables.new added.old.items added.new.items }
    ensures kept { IsKept tables.new links.new }
{
    note(added, &entry, delta)?;
    match put_linked(tables, links, entry, delta, Layer::Added) {
        Ok(()) => Ok(()),
        Err(error) => {
            forget(added);
            Err(error)
        }
    }
}

// What a row more makes of the links. Of the first of some rows it is known that no edge leads from it.
fn next_delta(tables: &Tables, row: &Row, first: bool) -> LinkDelta
    requires shaped { IsTableRow row.now }
    requires alone { IsTrue first → IsAlone tables.now.rows row.now }
    ensures { IsLinkDelta tables.now.rows row.now result }
{
    if first {
        lone_delta(tables, row)
    } else {
        delta_of(tables, row)
    }
}

// Moves a row whose slot is free into the graph, and notes it.
fn move_one(
    tables: &mut Tables,
    links: &mut Indexes,
    row: Row,
    added: &mut Vec<Noted>,
) -> Result<(), AllocError>
    requires shaped { IsTableRow row }
    requires free { ¬ HasSlot tables.old.rows (slot_of row) }
    requires alone { added.old.items ≡ [] → IsAlone tables.old.rows row }
    requires kept { IsKept tables.old links.old }
    ensures moved { HasMoved tables.old row result tables.new added.old.items added.new.items }
    ensures kept { IsKept tables.new links.new }
{
    let delta = next_delta(tables, &row, added.is_empty());
    put_noted(tables, links, Entry::of(row), delta, added)
}

// The same of a row whose slot may be filled.
fn insert_one(
    tables: &mut Tables,
    links: &mut Indexes,
    row: Row,
    added: &mut Vec<Noted>,
) -> Result<(), Insert>
    requires shaped { IsTableRow row }
    requires kept { IsKept tables.old links.old }
    ensures moved { HasMoved tables.old row result tables.new added.old.items added.new.items }
    ensures duplicate { result ≡ Err Insert.Duplicate → HasSlot tables.old.rows (slot_of row) }
    ensures kept { IsKept tables.new links.new }
{
    let delta = delta_of(tables, &row);
    let entry = Entry::of(row);
    if tables.holds(&entry) {
        return Err(Insert::Duplicate);
    }
    match put_noted(tables, links, entry, delta, added) {
        Ok(()) => Ok(()),
        Err(_) => Err(Insert::Memory),
    }
}

// Takes out the row that was added last, with its links.
fn take_last(tables: &mut Tables, links: &mut Indexes, noted: Noted)
    requires some { (before : List Row) × (r : Row) × IsGraph before × IsNoteOf before r tables.old.rows noted
        × HoldsAll before tables.old.frozen }
    requires kept { IsKept tables.old links.old }
    ensures back { (before : List Row) (r : Row) → IsGraph before → IsNoteOf before r tables.old.rows noted
        → tables.new.rows ≡ before }
    ensures frozen { tables.new.frozen ≡ tables.old.frozen }
    ensures kept { IsKept tables.new links.new }
{
    graphs_are_their_rows();
    tables.known();
    let Noted { name, delta } = noted;
    tables.take(name);
    tables.shared();
    links.drop_delta(delta);
}

/// Takes out rows that were added, the last first.
pub(crate) fn take_all(tables: &mut Tables, links: &mut Indexes, added: Vec<Noted>)
    requires some { (old : List Row) × IsGraph old × Lead old added.items tables.old.rows
        × HoldsAll old tables.old.frozen }
    requires kept { IsKept tables.old links.old }
    ensures back { (old : List Row) → IsGraph old → Lead old added.items tables.old.rows → tables.new.rows ≡ old }
    ensures kept { IsKept tables.new links.new }
{
    let mut left = added;
    while let Some(noted) = left.pop() {
        take_last(tables, links, noted);
    }
}

/// Moves new rows into the graph one after another, up to the first for which memory doesn't suffice, and notes
/// them.
pub(crate) fn move_each(
    tables: &mut Tables,
    links: &mut Indexes,
    rows: Vec<Row>,
    added: &mut Vec<Noted>,
) -> Result<(), AllocError>
    requires shaped { All IsTableRow rows.items }
    requires graph { IsGraph tables.old.rows }
    requires new { AreNew tables.old.rows rows.items }
    requires alone { IsFirstAlone tables.old.rows rows.items }
    requires none { added.old.items ≡ [] }
    requires kept { IsKept tables.old links.old }
    ensures ok { OnOk result (HasTaken tables.old.rows rows.items tables.new.rows) }
    ensures lead { Lead tables.old.rows added.new.items tables.new.rows }
    ensures frozen { tables.new.frozen ≡ tables.old.frozen }
    ensures kept { IsKept tables.new links.new }
{
    for row in rows {
        match move_one(tables, links, row, added) {
            Ok(()) => {}
            Err(error) => return Err(error),
        }
    }
    Ok(())
}

/// Adds the rows one after another, up to the first that can't be added, and notes them.
pub(crate) fn insert_each(
    tables: &mut Tables,
    links: &mut Indexes,
    rows: Vec<Row>,
    added: &mut Vec<Noted>,
) -> Result<(), Insert>
    requires shaped { All IsTableRow rows.items }
    requires graph { IsGraph tables.old.rows }
    requires none { added.old.items ≡ [] }
    requires kept { IsKept tables.old links.old }
    ensures ok { OnOk result (HasTaken tables.old.rows rows.items tables.new.rows) }
    ensures duplicate { result ≡ Err Insert.Duplicate → HasClash tables.old.rows rows.items }
    ensures lead { Lead tables.old.rows added.new.items tables.new.rows }
    ensures frozen { tables.new.frozen ≡ tables.old.frozen }
    ensures kept { IsKept tables.new links.new }
{
    for row in rows {
        match insert_one(tables, links, row, added) {
            Ok(()) => {}
            Err(why) => return Err(why),
        }
    }
    Ok(())
}
