//! Rows as the maps keep them.

ghost use Rattle.std.specs.Prelude.{◌≡◌, IfOk};
ghost use Rattle.snb_schema.specs.TableRows.{IsTableRow};
ghost use Rattle.snb_schema.specs.RowKeys.{row_key};
ghost use Rattle.snb_graph_tables.specs.Entries.{IsEntry, IsName, name_key, row_of};
ghost use Rattle.snb_graph_tables.specs.declared.entry.RowName.TheVariants as names;

use crate::links::link_entry;
use snb_graph_rows::{EdgeKey, WordKey};
use snb_schema::{Comment, Forum, Kind, Named, Organisation, Person, Place, Post, Row};
use std::alloc::AllocError;

/// A row as the maps keep it: a node whole, an edge by its key and what it has beside it (the other end,
/// the date or the year), a word by its key alone.
#[derive(Drop)]
pub enum Entry {
    Place { place: Place },
    TagClass { named: Named },
    Tag { named: Named },
    Organisation { organisation: Organisation },
    Person { person: Person },
    Forum { forum: Forum },
    Post { post: Post },
    Comment { comment: Comment },
    Edge { key: EdgeKey, rest: u64 },
    Word { key: WordKey },
}

/// What takes a row out of the maps again: its key.
#[derive(Drop)]
pub enum RowName {
    Node { kind: Kind, id: u64 },
    Edge { key: EdgeKey },
    Word { key: WordKey },
}

// The name of a node.
fn node_name(kind: Kind, id: u64) -> RowName
    ensures { result ≡ names.Node kind id }
{
    RowName::Node { kind, id }
}

impl Entry {
    /// The row as the maps keep it.
    /// The condition: the row is one that its table can have.
    pub fn of(row: Row) -> Entry
        requires { IsTableRow row }
        ensures row { row_of result ≡ row }
        ensures fits { IsEntry result }
    {
        match row {
            Row::Place { place } => Entry::Place { place },
            Row::TagClass { named } => Entry::TagClass { named },
            Row::Tag { named } => Entry::Tag { named },
            Row::Organisation { organisation } => Entry::Organisation { organisation },
            Row::Person { person } => Entry::Person { person },
            Row::Forum { forum } => Entry::Forum { forum },
            Row::Post { post } => Entry::Post { post },
            Row::Comment { comment } => Entry::Comment { comment },
            Row::Link { table, from, to } => {
                let (key, rest) = link_entry(table, from, to);
                Entry::Edge { key, rest }
            }
            Row::Dated {
                table,
                from,
                to,
                date,
            } => Entry::Edge {
                key: EdgeKey {
                    table,
                    first: from,
                    second: to,
                },
                rest: date,
            },
            Row::Yeared {
                table,
                from,
                to,
                year,
            } => Entry::Edge {
                key: EdgeKey {
                    table,
                    first: from,
                    second: to,
                },
                rest: year as u64,
            },
            Row::Word {
                table,
                person,
                text,
            } => Entry::Word {
                key: WordKey {
                    table,
                    person,
                    text,
                },
            },
        }
    }

    /// The name of the row. That of a word takes memory.
    /// The condition: the entry is that of a row that its table can have, as `Entry::of` makes it.
    pub fn name(&self) -> Result<RowName, AllocError>
        requires { IsEntry self.now }
        ensures named { IfOk result (λ name. name_key name ≡ row_key (row_of self.now)) }
        ensures fits { IfOk result IsName }
    {
        Ok(match self {
            Entry::Place { place } => node_name(Kind::Place, place.id),
            Entry::TagClass { named } => node_name(Kind::TagClass, named.id),
            Entry::Tag { named } => node_name(Kind::Tag, named.id),
            Entry::Organisation { organisation } => {
                node_name(Kind::Organisation, organisation.id)
            }
            Entry::Person { person } => node_name(Kind::Person, person.id),
            Entry::Forum { forum } => node_name(Kind::Forum, forum.id),
            Entry::Post { post } => node_name(Kind::Post, post.id),
            Entry::Comment { comment } => node_name(Kind::Comment, comment.id),
            Entry::Edge { key, rest: _ } => RowName::Edge { key: *key },
            Entry::Word { key } => RowName::Word { key: key.clone()? },
        })
    }
}
