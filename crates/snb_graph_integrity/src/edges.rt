//! The edges that nodes must have.

ghost use Rattle.std.specs.Prelude.{◌≡◌, ◌≤◌, []};
ghost use Rattle.std.specs.List.{flat_map};
ghost use Rattle.snb_schema.specs.declared.limits.TheConstants.{MAX_ID};
ghost use Rattle.snb_schema.specs.LentRows.{lent_row};
ghost use Rattle.snb_schema.specs.RowKeys.{row_key, slot};
ghost use Rattle.snb_graph_integrity.specs.Edges.{Finds, IsEndEdge, needs_at};
ghost use Rattle.snb_graph_model.specs.Graphs.{fills, rows};
ghost use Rattle.snb_graph_model.specs.Soundness.{edges_of, needs, needs_of};

use crate::unsound::Unsound;
use snb_graph_tables::{Entry, Tables};
use snb_schema::{KeyColumns, LentRow, Row, Table, key_columns_of};

const NONE: [Table; 0] = [];

const TAG: [Table; 1] = [Table::TagHasTypeTagClass];

const ORGANISATION: [Table; 1] = [Table::OrganisationIsLocatedInPlace];

const PERSON: [Table; 1] = [Table::PersonIsLocatedInPlace];

const FORUM: [Table; 1] = [Table::ForumHasModeratorPerson];

const POST: [Table; 3] = [
    Table::ForumContainerOfPost,
    Table::PostHasCreatorPerson,
    Table::PostIsLocatedInPlace,
];

// A comment's parent may be a post or a comment: the tables of replies share their keys.
const COMMENT: [Table; 3] = [
    Table::CommentHasCreatorPerson,
    Table::CommentIsLocatedInPlace,
    Table::CommentReplyOfPost,
];

// The tables whose nodes must have edges, in order.
const NODES: [Table; 6] = [
    Table::Tag,
    Table::Organisation,
    Table::Person,
    Table::Forum,
    Table::Post,
    Table::Comment,
];

// The tables of the edges that each node of a table must have, in order.
pub(crate) fn required_of(node: Table) -> &'static [Table]
    ensures { result.now ≡ edges_of node }
{
    match node {
        Table::Tag => &TAG,
        Table::Organisation => &ORGANISATION,
        Table::Person => &PERSON,
        Table::Forum => &FORUM,
        Table::Post => &POST,
        Table::Comment => &COMMENT,
        _ => &NONE,
    }
}

// The first id of a row's key.
pub(crate) fn first_id(row: LentRow<'_>) -> u64
    ensures { result ≡ (row_key (lent_row row.entry)).1 }
{
    match row {
        LentRow::Place { place } => place.id,
        LentRow::TagClass { named } => named.id,
        LentRow::Tag { named } => named.id,
        LentRow::Organisation { organisation } => organisation.id,
        LentRow::Person { person } => person.id,
        LentRow::Forum { forum } => forum.id,
        LentRow::Post { post } => post.id,
        LentRow::Comment { comment } => comment.id,
        LentRow::Link { table, from, to } => match key_columns_of(table) {
            KeyColumns::First => from,
            KeyColumns::Second => to,
            KeyColumns::FirstTwo => from,
        },
        LentRow::Dated { from, .. } => from,
        LentRow::Yeared { from, .. } => from,
        LentRow::Word { person, .. } => person,
    }
}

// Whether a row fills the slot of an edge whose key is this id: the slot of a link from the id to
// itself, whichever end is its table's key.
fn is_filled(tables: &Tables, edge: Table, id: u64) -> bool
    requires edge { IsEndEdge edge }
    requires small { id ≤ MAX_ID }
    ensures { result ≡ fills tables.now.rows (slot (edge, id, 0, [])) }
{
    let row = Row::Link {
        table: edge,
        from: id,
        to: id,
    };
    tables.holds(&Entry::of(row))
}

// The first edge that a node lacks.
fn check_node(tables: &Tables, node: Table, id: u64) -> Result<(), Unsound>
    requires { id ≤ MAX_ID }
    ensures { Finds tables.now.rows (needs_at node id) result }
{
    for edge in required_of(node) {
        if !is_filled(tables, *edge, id) {
            return Err(Unsound::Lacks {
                table: node,
                id,
                edge: *edge,
            });
        }
    }
    Ok(())
}

// The first edge that a node of a table lacks.
fn check_nodes(tables: &Tables, node: Table) -> Result<(), Unsound>
    ensures { Finds tables.now.rows (flat_map needs_of (rows tables.now.rows node)) result }
{
    tables.known();
    for row in tables.lent(node) {
        check_node(tables, node, first_id(row))?;
    }
    Ok(())
}

// The first edge that a node lacks, of all nodes.
pub(crate) fn check_edges(tables: &Tables) -> Result<(), Unsound>
    ensures { Finds tables.now.rows (needs tables.now.rows) result }
{
    tables.known();
    for node in &NODES {
        check_nodes(tables, *node)?;
    }
    Ok(())
}
