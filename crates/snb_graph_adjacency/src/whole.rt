//! The links of all rows of a graph, made at once.

ghost use Rattle.std.specs.Prelude.{◌≡◌, ◌⊎◌, Some, None, IfOk, IfSome, OnOk};
ghost use Rattle.snb_schema.specs.declared.layout.KeyColumns.TheVariants as columns;
ghost use Rattle.snb_schema.specs.declared.layout.Shape.TheVariants as shapes;
ghost use Rattle.snb_schema.specs.Layouts.{key_columns, shape};
ghost use Rattle.snb_graph_adjacency.specs.declared.link.Walk.TheVariants as walks;
ghost use Rattle.snb_graph_adjacency.specs.Kept.{IsIndexed};
ghost use Rattle.snb_graph_adjacency.specs.Links.{Tells};
ghost use Rattle.snb_graph_adjacency.specs.LinkDelta.{IsDated, IsUndated};
ghost use Rattle.snb_graph_adjacency.specs.Whole.{ArePairsBy, HasAddedLinks, HasEdge, IsLedBy, IsWide};

use crate::link_delta::{comment_date, post_date};
use snb_graph_links::AdjacencyMap;
use snb_graph_tables::Tables;
use snb_schema::{Kind, Table};
use std::alloc::{AllocError, Global};

// Adds the edges of a table with dates or years, each from its first end or, where they lead back, from its second.
fn add_edges(
    tables: &Tables,
    table: Table,
    back: bool,
    links: &mut Vec<(u64, (u64, u64))>,
) -> Result<(), AllocError>
    requires { IsWide table }
    ensures { OnOk result (HasAddedLinks links.old.items (HasEdge tables.now.rows table back) links.new.items) }
{
    for (key, value) in tables.edges_of(table) {
        if back {
            links.push((key.second, (key.first, *value)))?;
        } else {
            links.push((key.first, (key.second, *value)))?;
        }
    }
    Ok(())
}

// The creation date of a message.
fn message_date(tables: &Tables, kind: Kind, id: u64) -> Option<u64>
    ensures found { IfSome result (IsDated tables.now.rows kind id) }
    ensures none { result ≡ None → IsUndated tables.now.rows kind id }
{
    match kind {
        Kind::Post => post_date(tables, id),
        Kind::Comment => comment_date(tables, id),
        _ => None,
    }
}

// Adds the edges of a table that lead from messages, each from where it leads to its message, with the message's date.
fn add_messages(
    tables: &Tables,
    table: Table,
    kind: Kind,
    links: &mut Vec<(u64, (u64, u64))>,
) -> Result<(), AllocError>
    requires links { shape table ≡ shapes.Link }
    requires first { key_columns table ≡ columns.First }
    ensures { OnOk result (HasAddedLinks links.old.items (IsLedBy tables.now.rows table kind) links.new.items) }
{
    tables.known();
    for (key, end) in tables.edges_of(table) {
        if let Some(date) = message_date(tables, kind, key.first) {
            links.push((*end, (key.first, date)))?;
        }
    }
    Ok(())
}

/// The links of friendships.
pub(crate) fn friends(alloc: Global, tables: &Tables) -> Result<AdjacencyMap, AllocError>
    ensures { IfOk result (ArePairsBy (Tells tables.now.rows walks.Friends)) }
{
    tables.known();
    let mut links = Vec::new(alloc);
    add_edges(tables, Table::PersonKnowsPerson, false, &mut links)?;
    add_edges(tables, Table::PersonKnowsPerson, true, &mut links)?;
    AdjacencyMap::of(alloc, links)
}

/// The links from persons to their messages.
pub(crate) fn messages(alloc: Global, tables: &Tables) -> Result<AdjacencyMap, AllocError>
    ensures { IfOk result (ArePairsBy (Tells tables.now.rows walks.Messages)) }
{
    tables.known();
    let mut links = Vec::new(alloc);
    add_messages(tables, Table::PostHasCreatorPerson, Kind::Post, &mut links)?;
    add_messages(
        tables,
        Table::CommentHasCreatorPerson,
        Kind::Comment,
        &mut links,
    )?;
    AdjacencyMap::of(alloc, links)
}

/// The links from messages to the comments that reply to them.
pub(crate) fn replies(alloc: Global, tables: &Tables) -> Result<AdjacencyMap, AllocError>
    ensures { IfOk result (ArePairsBy (Tells tables.now.rows walks.Replies)) }
{
    tables.known();
    let mut links = Vec::new(alloc);
    add_messages(tables, Table::CommentReplyOfPost, Kind::Comment, &mut links)?;
    add_messages(
        tables,
        Table::CommentReplyOfComment,
        Kind::Comment,
        &mut links,
    )?;
    AdjacencyMap::of(alloc, links)
}

/// The links along the edges of one table with dates or years, each from its first end or, where they lead back,
/// from its second.
pub(crate) fn edges(
    alloc: Global,
    tables: &Tables,
    table: Table,
    back: bool,
) -> Result<AdjacencyMap, AllocError>
    requires { IsWide table }
    ensures { IfOk result (ArePairsBy (HasEdge tables.now.rows table back)) }
{
    tables.known();
    let mut links = Vec::new(alloc);
    add_edges(tables, table, back, &mut links)?;
    AdjacencyMap::of(alloc, links)
}
