//! The chains of comments' parents.

ghost use Rattle.std.specs.Prelude.{◌≡◌, IfOk};
ghost use Rattle.snb_schema.specs.declared.layout.Shape.TheVariants as shapes;
ghost use Rattle.snb_schema.specs.declared.row.Row.TheVariants as row;
ghost use Rattle.snb_schema.specs.LentRows.{lent_row};
ghost use Rattle.snb_schema.specs.RowValues.{row_shape, table_of};
ghost use Rattle.snb_graph_integrity.specs.Chains.{AreReplies, AreRoots, FindsCycle, MarksRooted};

use crate::edges::first_id;
use crate::mark::reached;
use crate::unsound::Unsound;
use snb_graph_rows::Index;
use snb_graph_tables::Tables;
use snb_schema::{LentRow, Table};
use std::alloc::{AllocError, Global};

// The two ends of a link.
fn ends(link: LentRow<'_>) -> (u64, u64)
    requires { row_shape (lent_row link) ≡ shapes.Link }
    ensures { lent_row link.entry ≡ row.Link (table_of (lent_row link.entry)) result.0 result.1 }
{
    match link {
        LentRow::Link { from, to, .. } => (from, to),
        _ => unreachable!(),
    }
}

// The comments that reply to posts.
fn roots(alloc: Global, tables: &Tables) -> Result<Vec<u64>, AllocError>
    ensures { IfOk result (λ ids. AreRoots tables.now.rows ids.items) }
{
    tables.known();
    let mut ids = Vec::new(alloc);
    for row in tables.lent(Table::CommentReplyOfPost) {
        let (comment, _post) = ends(row);
        ids.push(comment)?;
    }
    Ok(ids)
}

// The pairs of a comment and a comment that replies to it.
fn replies(alloc: Global, tables: &Tables) -> Result<Index, AllocError>
    ensures { IfOk result (AreReplies tables.now.rows) }
{
    tables.known();
    let mut pairs = Index::empty(alloc);
    for row in tables.lent(Table::CommentReplyOfComment) {
        let (comment, parent) = ends(row);
        pairs.add(parent, comment, 0)?;
    }
    Ok(pairs)
}

// Marks on the comments whose chains of parents end at posts.
fn rooted(alloc: Global, tables: &Tables) -> Result<Index, AllocError>
    ensures { IfOk result (MarksRooted tables.now.rows) }
{
    let ids = roots(alloc, tables)?;
    let pairs = replies(alloc, tables)?;
    reached(alloc, &pairs, ids)
}

// The least comment whose chain of parents doesn't end at a post.
pub(crate) fn check_chains(alloc: Global, tables: &Tables) -> Result<(), Unsound>
    ensures { FindsCycle tables.now.rows result }
{
    let marks = rooted(alloc, tables)?;
    tables.known();
    for row in tables.lent(Table::Comment) {
        let id = first_id(row);
        if !marks.has(id, 0) {
            return Err(Unsound::Cycle { comment: id });
        }
    }
    Ok(())
}
