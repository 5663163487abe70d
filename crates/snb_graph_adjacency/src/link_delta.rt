//! What a row more makes of the links.

ghost use Rattle.std.specs.Prelude.{◌≡◌, Some, None, IfSome};
ghost use Rattle.snb_schema.specs.declared.row.Row.{Row};
ghost use Rattle.snb_schema.specs.declared.row.Row.TheVariants as row;
ghost use Rattle.snb_schema.specs.declared.table.Kind.TheVariants as kinds;
ghost use Rattle.snb_schema.specs.TableRows.{IsTableRow};
ghost use Rattle.snb_graph_adjacency.specs.Links.{IsCreatorTable, IsParentTable, message_of};
ghost use Rattle.snb_graph_adjacency.specs.LinkDelta.{IsAlone, IsDated, IsLed, IsLedNowhere, IsLinkDelta, IsUndated, link};

use crate::link::{Link, LinkDelta, Walk};
use snb_graph_tables::Tables;
use snb_schema::{Row, Table};

/// The creation date of a post.
pub(crate) fn post_date(tables: &Tables, id: u64) -> Option<u64>
    ensures found { IfSome result (IsDated tables.now.rows kinds.Post id) }
    ensures none { result ≡ None → IsUndated tables.now.rows kinds.Post id }
{
    match tables.post(id) {
        Some(post) => Some(post.creation_date),
        None => None,
    }
}

/// The creation date of a comment.
pub(crate) fn comment_date(tables: &Tables, id: u64) -> Option<u64>
    ensures found { IfSome result (IsDated tables.now.rows kinds.Comment id) }
    ensures none { result ≡ None → IsUndated tables.now.rows kinds.Comment id }
{
    match tables.comment(id) {
        Some(comment) => Some(comment.creation_date),
        None => None,
    }
}

// Who created a post.
fn post_creator(tables: &Tables, id: u64) -> Option<u64>
    ensures found { IfSome result (IsLed IsCreatorTable tables.now.rows kinds.Post id) }
    ensures none { result ≡ None → IsLedNowhere IsCreatorTable tables.now.rows kinds.Post id }
{
    tables.one(Table::PostHasCreatorPerson, id)
}

// Who created a comment.
fn comment_creator(tables: &Tables, id: u64) -> Option<u64>
    ensures found { IfSome result (IsLed IsCreatorTable tables.now.rows kinds.Comment id) }
    ensures none { result ≡ None → IsLedNowhere IsCreatorTable tables.now.rows kinds.Comment id }
{
    tables.one(Table::CommentHasCreatorPerson, id)
}

// The message that a comment replies to.
fn parent_of(tables: &Tables, id: u64) -> Option<u64>
    ensures found { IfSome result (IsLed IsParentTable tables.now.rows kinds.Comment id) }
    ensures none { result ≡ None → IsLedNowhere IsParentTable tables.now.rows kinds.Comment id }
{
    match tables.one(Table::CommentReplyOfPost, id) {
        Some(post) => Some(post),
        None => tables.one(Table::CommentReplyOfComment, id),
    }
}

// A link along a walk, where it leads from somewhere.
fn link_from(walk: Walk, of: Option<u64>, id: u64, date: u64) -> Option<Link>
    ensures some { IfSome of (λ n. result ≡ Some (link walk n id date)) }
    ensures none { of ≡ None → result ≡ None }
{
    match of {
        Some(of) => Some(Link { walk, of, id, date }),
        None => None,
    }
}

// A link along a walk, where it has a date.
fn link_at(walk: Walk, of: u64, id: u64, date: Option<u64>) -> Option<Link>
    ensures some { IfSome date (λ n. result ≡ Some (link walk of id n)) }
    ensures none { date ≡ None → result ≡ None }
{
    match date {
        Some(date) => Some(Link { walk, of, id, date }),
        None => None,
    }
}

// What a new edge makes of the links.
fn link_delta(tables: &Tables, table: Table, from: u64, to: u64) -> LinkDelta
    ensures { IsLinkDelta tables.now.rows (row.Link table from to) result }
{
    tables.known();
    match table {
        Table::PostHasCreatorPerson => LinkDelta {
            first: link_at(Walk::Messages, to, from, post_date(tables, from)),
            second: None,
        },
        Table::CommentHasCreatorPerson => LinkDelta {
            first: link_at(Walk::Messages, to, from, comment_date(tables, from)),
            second: None,
        },
        Table::CommentReplyOfPost => LinkDelta {
            first: link_at(Walk::Replies, to, from, comment_date(tables, from)),
            second: None,
        },
        Table::CommentReplyOfComment => LinkDelta {
            first: link_at(Walk::Replies, to, from, comment_date(tables, from)),
            second: None,
        },
        _ => LinkDelta {
            first: None,
            second: None,
        },
    }
}

// What a new edge with a date makes of the links.
fn dated_delta(tables: &Tables, table: Table, from: u64, to: u64, date: u64) -> LinkDelta
    requires { IsTableRow (row.Dated table from to date) }
    ensures { IsLinkDelta tables.now.rows (row.Dated table from to date) result }
{
    tables.known();
    match table {
        Table::PersonKnowsPerson => LinkDelta {
            first: Some(Link {
                walk: Walk::Friends,
                of: from,
                id: to,
                date,
            }),
            second: Some(Link {
                walk: Walk::Friends,
                of: to,
                id: from,
                date,
            }),
        },
        Table::PersonLikesPost => LinkDelta {
            first: Some(Link {
                walk: Walk::PostLikes,
                of: to,
                id: from,
                date,
            }),
            second: None,
        },
        Table::PersonLikesComment => LinkDelta {
            first: Some(Link {
                walk: Walk::CommentLikes,
                of: to,
                id: from,
                date,
            }),
            second: None,
        },
        _ => LinkDelta {
            first: None,
            second: None,
        },
    }
}

// What a new edge with a year makes of the links.
fn yeared_delta(tables: &Tables, table: Table, from: u64, to: u64, year: u32) -> LinkDelta
    ensures { IsLinkDelta tables.now.rows (row.Yeared table from to year) result }
{
    tables.known();
    match table {
        Table::PersonWorkAtOrganisation => LinkDelta {
            first: Some(Link {
                walk: Walk::Work,
                of: from,
                id: to,
                date: year as u64,
            }),
            second: None,
        },
        Table::PersonStudyAtOrganisation => LinkDelta {
            first: Some(Link {
                walk: Walk::Study,
                of: from,
                id: to,
                date: year as u64,
            }),
            second: None,
        },
        _ => LinkDelta {
            first: None,
            second: None,
        },
    }
}

// What a new comment makes of the links: it is its creator's, and replies to its parent.
fn comment_delta(tables: &Tables, id: u64, date: u64) -> LinkDelta
    ensures { (r : Row) → message_of r ≡ Some (kinds.Comment, id, date) → IsLinkDelta tables.now.rows r result }
{
    tables.known();
    LinkDelta {
        first: link_from(Walk::Messages, comment_creator(tables, id), id, date),
        second: link_from(Walk::Replies, parent_of(tables, id), id, date),
    }
}

// What a new post makes of the links: it is its creator's.
fn post_delta(tables: &Tables, id: u64, date: u64) -> LinkDelta
    ensures { (r : Row) → message_of r ≡ Some (kinds.Post, id, date) → IsLinkDelta tables.now.rows r result }
{
    tables.known();
    LinkDelta {
        first: link_from(Walk::Messages, post_creator(tables, id), id, date),
        second: None,
    }
}

// No links.
fn no_delta() -> LinkDelta
    ensures { result ≡ record { first = None; second = None } }
{
    LinkDelta {
        first: None,
        second: None,
    }
}

/// What a row more makes of the links that the rows tell of.
/// The condition: the row is one that its table can have.
pub fn delta_of(tables: &Tables, row: &Row) -> LinkDelta
    requires { IsTableRow row.now }
    ensures { IsLinkDelta tables.now.rows row.now result }
{
    match row {
        Row::Post { post } => post_delta(tables, post.id, post.creation_date),
        Row::Comment { comment } => comment_delta(tables, comment.id, comment.creation_date),
        Row::Link { table, from, to } => link_delta(tables, *table, *from, *to),
        Row::Dated {
            table,
            from,
            to,
            date,
        } => dated_delta(tables, *table, *from, *to, *date),
        Row::Yeared {
            table,
            from,
            to,
            year,
        } => yeared_delta(tables, *table, *from, *to, *year),
        _ => LinkDelta {
            first: None,
            second: None,
        },
    }
}

/// The same, without a look for the edges of a message.
/// The conditions: the row is one that its table can have, and if it is a message, no edge leads from it.
pub fn lone_delta(tables: &Tables, row: &Row) -> LinkDelta
    requires shaped { IsTableRow row.now }
    requires alone { IsAlone tables.now.rows row.now }
    ensures { IsLinkDelta tables.now.rows row.now result }
{
    tables.known();
    match row {
        Row::Post { post: _ } => no_delta(),
        Row::Comment { comment: _ } => no_delta(),
        _ => delta_of(tables, row),
    }
}
