//! The rows of a graph in ten maps.

ghost use Rattle.std.specs.Prelude.{length, ◌≡◌, [], IfOk, Contains, OnOk};
ghost use Rattle.snb_schema.specs.declared.row.Row.{Row};
ghost use Rattle.snb_graph_model.specs.Graphs.{count, IsGraph};

mod edges;
mod entries;
mod nodes;
mod same;
mod walks;
mod words;

use snb_graph_rows::{Class, EdgeKey, Mark, RowMap, WordKey};
use snb_schema::{
    Comment, Forum, Held, Key, Named, Organisation, Person, Place, Post, Shape, Table, shape_of,
};
use std::alloc::{AllocError, Global};
use std::marker::Model;

/// The rows of a graph: those of each kind of node, then the edges, then the words, each in the
/// order of tables and keys.
pub struct Tables {
    places: RowMap<u64, Place>,
    tag_classes: RowMap<u64, Class>,
    tags: RowMap<u64, Named>,
    organisations: RowMap<u64, Organisation>,
    persons: RowMap<u64, Person>,
    forums: RowMap<u64, Forum>,
    posts: RowMap<u64, Post>,
    comments: RowMap<u64, Comment>,
    edges: RowMap<EdgeKey, u64>,
    words: RowMap<WordKey, Mark>,
    alloc: Global,
}

impl Drop for Tables {
    fn drop(self) {
        let Tables {
            places: _,
            tag_classes: _,
            tags: _,
            organisations: _,
            persons: _,
            forums: _,
            posts: _,
            comments: _,
            edges: _,
            words: _,
            alloc: _,
        } = self;
    }
}

impl Model for Tables {
    ghost use Rattle.snb_graph_rows.specs.Rows.{Stock};

    ghost Value = { Stock };

    ghost use Rattle.snb_graph_tables.specs.Parts.{frozen_parts, joined, parts, IsWhole};

    ghost view = { λ g. record { rows = joined (parts g); frozen = joined (frozen_parts g) } };

    ghost invariant = { λ g. IsWhole (parts g) };
}

impl Tables {
    /// A graph without rows. Takes no memory.
    pub fn empty(alloc: Global) -> Tables
        ensures rows { result.rows ≡ [] }
        ensures frozen { result.frozen ≡ [] }
        ensures graph { IsGraph result.rows }
    {
        Tables {
            places: RowMap::empty(alloc),
            tag_classes: RowMap::empty(alloc),
            tags: RowMap::empty(alloc),
            organisations: RowMap::empty(alloc),
            persons: RowMap::empty(alloc),
            forums: RowMap::empty(alloc),
            posts: RowMap::empty(alloc),
            comments: RowMap::empty(alloc),
            edges: RowMap::empty(alloc),
            words: RowMap::empty(alloc),
            alloc,
        }
    }

    /// The rows are a graph.
    pub fn known(&self)
        ensures { IsGraph self.now.rows }
    {
        let _ = &self.places;
    }

    /// A law: the frozen rows are among the rows.
    pub fn shared(&self)
        ensures { (r : Row) → Contains self.now.frozen r → Contains self.now.rows r }
    {
        self.places.known();
        self.tag_classes.known();
        self.tags.known();
        self.organisations.known();
        self.persons.known();
        self.forums.known();
        self.posts.known();
        self.comments.known();
        self.edges.known();
        self.words.known();
    }

    /// Makes all rows frozen. They stay, whatever it answers; where memory doesn't suffice, some of them
    /// may be frozen, and those that were are.
    pub fn freeze(&mut self) -> Result<(), AllocError>
        ensures rows { self.new.rows ≡ self.old.rows }
        ensures ok { OnOk result (self.new.frozen ≡ self.old.rows) }
        ensures more { (r : Row) → Contains self.old.frozen r → Contains self.new.frozen r }
    {
        self.places
            .freeze()
            .and(self.tag_classes.freeze())
            .and(self.tags.freeze())
            .and(self.organisations.freeze())
            .and(self.persons.freeze())
            .and(self.forums.freeze())
            .and(self.posts.freeze())
            .and(self.comments.freeze())
            .and(self.edges.freeze())
            .and(self.words.freeze())
    }

    /// Tables with the same rows, which share the frozen ones and copy the others. An error says that
    /// memory doesn't suffice.
    pub fn try_copy(&self) -> Result<Tables, AllocError>
        ensures { IfOk result (λ copy. copy ≡ self.now) }
    {
        Ok(Tables {
            places: self.places.try_copy()?,
            tag_classes: self.tag_classes.try_copy()?,
            tags: self.tags.try_copy()?,
            organisations: self.organisations.try_copy()?,
            persons: self.persons.try_copy()?,
            forums: self.forums.try_copy()?,
            posts: self.posts.try_copy()?,
            comments: self.comments.try_copy()?,
            edges: self.edges.try_copy()?,
            words: self.words.try_copy()?,
            alloc: self.alloc,
        })
    }

    /// How many rows there are.
    pub fn rows(&self) -> u64
        ensures { result ≡ length self.now.rows }
    {
        self.places.len()
            + self.tag_classes.len()
            + self.tags.len()
            + self.organisations.len()
            + self.persons.len()
            + self.forums.len()
            + self.posts.len()
            + self.comments.len()
            + self.edges.len()
            + self.words.len()
    }

    /// How many rows a table has.
    pub fn count(&self, table: Table) -> u64
        ensures { result ≡ count self.now.rows table }
    {
        match shape_of(table) {
            Shape::Place => self.places.len(),
            Shape::TagClass => self.tag_classes.len(),
            Shape::Tag => self.tags.len(),
            Shape::Organisation => self.organisations.len(),
            Shape::Person => self.persons.len(),
            Shape::Forum => self.forums.len(),
            Shape::Post => self.posts.len(),
            Shape::Comment => self.comments.len(),
            Shape::Link => self.count_edges(table),
            Shape::Dated => self.count_edges(table),
            Shape::Yeared => self.count_edges(table),
            Shape::Word => self.count_words(table),
        }
    }
}

impl Held for Tables {
    ghost use Rattle.snb_graph_model.specs.Graphs.{HoldsKey};

    ghost holds = { λ g. HoldsKey g.rows };

    fn has(&self, key: &Key) -> bool {
        match *key {
            Key::Node { kind, id } => self.has_node(kind, id),
            Key::Knows { low, high } => self.has_edge(Table::PersonKnowsPerson, low, high),
            Key::LikesPost { person, post } => self.has_edge(Table::PersonLikesPost, person, post),
            Key::LikesComment { person, comment } => {
                self.has_edge(Table::PersonLikesComment, person, comment)
            }
            Key::Member { forum, person } => {
                self.has_edge(Table::ForumHasMemberPerson, forum, person)
            }
        }
    }
}
