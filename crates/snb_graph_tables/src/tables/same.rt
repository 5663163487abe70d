//! Whether rows are held, in each of their values.

ghost use Rattle.std.specs.Prelude.{◌≡◌, ◌↔◌, IsTrue, Contains, Some};
ghost use Rattle.std.specs.Option.{option_copied};
ghost use Rattle.snb_schema.specs.TableRows.{IsTableRow};

use super::Tables;
use crate::links::link_entry;
use crate::words::Words;
use snb_base::Text;
use snb_graph_rows::Exact;
use snb_schema::Row;

// Whether a node is the one that is held under its id.
fn is_held<N: Exact>(held: Option<&N>, node: &N) -> bool
    ensures { IsTrue result ↔ (option_copied held.entry ≡ Some node.now) }
{
    match held {
        Some(held) => *held == *node,
        None => false,
    }
}

// Whether a text is among the words.
fn has_text(words: Words<'_>, text: &Text) -> bool
    ensures { IsTrue result ↔ Contains words.entry text.now }
{
    for word in words {
        if *word == *text {
            return true;
        }
    }
    false
}

impl Tables {
    /// Whether this very row is held. Takes no memory.
    /// The condition: the row is one that its table can have.
    pub fn same_row(&self, row: &Row) -> bool
        requires { IsTableRow row.now }
        ensures { IsTrue result ↔ Contains self.now.rows row.now }
    {
        self.known();
        match row {
            Row::Place { place } => is_held(self.place(place.id), place),
            Row::TagClass { named } => is_held(self.tag_class(named.id), named),
            Row::Tag { named } => is_held(self.tag(named.id), named),
            Row::Organisation { organisation } => {
                is_held(self.organisation(organisation.id), organisation)
            }
            Row::Person { person } => is_held(self.person(person.id), person),
            Row::Forum { forum } => is_held(self.forum(forum.id), forum),
            Row::Post { post } => is_held(self.post(post.id), post),
            Row::Comment { comment } => is_held(self.comment(comment.id), comment),
            Row::Link { table, from, to } => {
                let (key, rest) = link_entry(*table, *from, *to);
                self.has_this_edge(key.table, key.first, key.second, rest)
            }
            Row::Dated {
                table,
                from,
                to,
                date,
            } => self.has_this_edge(*table, *from, *to, *date),
            Row::Yeared {
                table,
                from,
                to,
                year,
            } => self.has_this_edge(*table, *from, *to, u64::from(*year)),
            Row::Word {
                table,
                person,
                text,
            } => has_text(self.words(*table, *person), text),
        }
    }
}
