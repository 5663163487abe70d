//! Rows that are looked for, added and taken out, as entries of the maps.

ghost use Rattle.std.specs.Prelude.{◌≡◌, ◌↔◌, IsTrue, Contains};
ghost use Rattle.snb_graph_tables.specs.Entries.{IsEntry, IsName, IsNoNode, entry_key, name_key, row_of};
ghost use Rattle.snb_graph_tables.specs.Parts.{HasGivenBack, HasPut};
ghost use Rattle.snb_schema.specs.declared.row.Row.{Row};
ghost use Rattle.snb_graph_model.specs.Graphs.{HasSlot, HasKey};
ghost use Rattle.snb_schema.specs.RowKeys.{slot_of, row_key};
ghost use Rattle.snb_graph_tables.specs.Twins.{HasTwin};

use super::Tables;
use crate::entry::{Entry, RowName};
use crate::links::twin_of;
use snb_graph_maps::Layer;
use snb_graph_rows::{Class, Mark};
use snb_schema::Kind;
use std::alloc::AllocError;

impl Tables {
    // Whether a row of the entry's key is held.
    fn has_key(&self, entry: &Entry) -> bool
        requires { IsEntry entry.now }
        ensures { IsTrue result ↔ HasKey self.now.rows (entry_key entry.now) }
    {
        match entry {
            Entry::Place { place } => self.has_node(Kind::Place, place.id),
            Entry::TagClass { named } => self.has_node(Kind::TagClass, named.id),
            Entry::Tag { named } => self.has_node(Kind::Tag, named.id),
            Entry::Organisation { organisation } => {
                self.has_node(Kind::Organisation, organisation.id)
            }
            Entry::Person { person } => self.has_node(Kind::Person, person.id),
            Entry::Forum { forum } => self.has_node(Kind::Forum, forum.id),
            Entry::Post { post } => self.has_node(Kind::Post, post.id),
            Entry::Comment { comment } => self.has_node(Kind::Comment, comment.id),
            Entry::Edge { key, rest: _ } => self.has_edge(key.table, key.first, key.second),
            Entry::Word { key } => self.has_word(key),
        }
    }

    // Whether a row of the other table that shares the entry's keys has its key.
    fn has_twin(&self, entry: &Entry) -> bool
        requires { IsEntry entry.now }
        ensures { IsTrue result ↔ HasTwin self.now.rows (entry_key entry.now) }
    {
        match entry {
            Entry::Post { post } => self.has_node(Kind::Comment, post.id),
            Entry::Comment { comment } => self.has_node(Kind::Post, comment.id),
            Entry::Edge { key, rest: _ } => match twin_of(key.table) {
                Some(other) => self.has_edge(other, key.first, key.second),
                None => false,
            },
            Entry::Word { key: _ } => false,
            _ => false,
        }
    }

    /// Whether a row of the entry's slot is held. Takes no memory.
    /// The condition: the entry is that of a row that its table can have, as `Entry::of` makes it.
    pub fn holds(&self, entry: &Entry) -> bool
        requires { IsEntry entry.now }
        ensures { IsTrue result ↔ HasSlot self.now.rows (slot_of (row_of entry.now)) }
    {
        self.has_key(entry) || self.has_twin(entry)
    }

    /// Whether this very row, an edge or a word, is held. Takes no memory.
    /// The conditions: the entry is that of a row that its table can have, and no node's.
    pub fn has_same(&self, entry: &Entry) -> bool
        requires fits { IsEntry entry.now }
        requires no_node { IsNoNode entry.now }
        ensures { IsTrue result ↔ Contains self.now.rows (row_of entry.now) }
    {
        self.known();
        match entry {
            Entry::Edge { key, rest } => {
                self.has_this_edge(key.table, key.first, key.second, *rest)
            }
            Entry::Word { key } => self.has_word(key),
            _ => false,
        }
    }

    /// Adds a row; it is frozen only if it goes into that half. It searches for the row's place alone. Want of memory
    /// leaves all as it was.
    /// The conditions: the entry is that of a row that its table can have, as `Entry::of` makes it, and the row's slot
    /// is free.
    pub fn put(&mut self, entry: Entry, half: Layer) -> Result<(), AllocError>
        requires fits { IsEntry entry }
        requires free { ¬ HasSlot self.old.rows (slot_of (row_of entry)) }
        ensures { HasPut half self.old (row_of entry) result self.new }
    {
        match entry {
            Entry::Place { place } => self.places.add(place.id, place, half),
            Entry::TagClass { named } => self.tag_classes.add(named.id, Class { named }, half),
            Entry::Tag { named } => self.tags.add(named.id, named, half),
            Entry::Organisation { organisation } => self
                .organisations
                .add(organisation.id, organisation, half),
            Entry::Person { person } => self.persons.add(person.id, person, half),
            Entry::Forum { forum } => self.forums.add(forum.id, forum, half),
            Entry::Post { post } => self.posts.add(post.id, post, half),
            Entry::Comment { comment } => self.comments.add(comment.id, comment, half),
            Entry::Edge { key, rest } => self.edges.add(key, rest, half),
            Entry::Word { key } => self.words.add(key, Mark {}, half),
        }
    }

    /// Takes out the row of a name. Takes no memory.
    /// The conditions: the row is held and isn't frozen.
    pub fn take(&mut self, name: RowName)
        requires fits { IsName name }
        requires held { HasKey self.old.rows (name_key name) }
        requires free { ¬ HasKey self.old.frozen (name_key name) }
        ensures gone { (r : Row) → Contains self.old.rows r → row_key r ≡ name_key name
            → HasGivenBack self.old.rows r self.new.rows }
        ensures frozen { self.new.frozen ≡ self.old.frozen }
    {
        match name {
            RowName::Node { kind, id } => self.take_node(kind, id),
            RowName::Edge { key } => self.take_edge(key),
            RowName::Word { key } => self.take_word(key),
        }
    }
}
