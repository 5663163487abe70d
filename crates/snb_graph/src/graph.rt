//! The graph, with what is walked along.

ghost use Rattle.std.specs.Prelude.{◌≢◌, length, map, All, ◌≡◌, ◌∷◌, [], ◌↔◌, Contains, IsTrue, IsSome, IfSome, IfOk, OnOk, OnErr, Err};
ghost use Rattle.std.specs.Option.{option_copied};
ghost use Rattle.snb_schema.specs.declared.layout.KeyColumns.TheVariants as columns;
ghost use Rattle.snb_schema.specs.declared.layout.Shape.TheVariants as shapes;
ghost use Rattle.snb_schema.specs.declared.row.Row.TheVariants as row;
ghost use Rattle.snb_schema.specs.declared.table.Kind.TheVariants as kinds;
ghost use Rattle.snb_schema.specs.declared.table.Table.TheVariants as table;
ghost use Rattle.snb_schema.specs.Layouts.{key_columns, shape};
ghost use Rattle.snb_schema.specs.RowKeys.{node_key, slot_of};
ghost use Rattle.snb_schema.specs.TableRows.{IsTableRow};
ghost use Rattle.snb_graph_model.specs.Around.{friends, likes, likes_in, messages, replies, study, work};
ghost use Rattle.snb_graph_model.specs.Graphs.{HasGained, HasKey, HasSlot, IsGraph, count, rows};
ghost use Rattle.snb_graph_model.specs.Soundness.{HoldsRefs as IsHeld};
ghost use Rattle.snb_graph_rows.specs.Edges.{link_of};
ghost use Rattle.snb_graph_tables.specs.declared.insert.Insert.TheVariants as Insert;
ghost use Rattle.snb_graph_tables.specs.Words.{words_of};
ghost use Rattle.snb_graph.specs.Additions.{AreNew, HasClash, IsFirstAlone};
ghost use Rattle.snb_graph.specs.Walks.{IsWalkOver};
ghost use Rattle.snb_graph_links.specs.Pairs.{rest};

use crate::additions::{insert, insert_each, move_each, take_all};
use snb_graph_adjacency::{Indexes, Walk};
use snb_graph_links::Links;
use snb_graph_maps::{Layer, Walk as Entries};
use snb_graph_tables::{Insert, LentRows, TableRows, Tables, Words};
use snb_schema::{Comment, Forum, Held, Key, Named, Organisation, Person, Place, Post, Row, Table};
use std::alloc::{AllocError, Global};
use std::marker::Model;

/// A graph. A contract sees its rows: those of each kind of node, then the edges, then the words,
/// each in the order of tables and keys.
pub struct Graph {
    tables: Tables,
    links: Indexes,
    alloc: Global,
}

// Written out, so that letting a graph go is one call wherever it happens.
impl Drop for Graph {
    fn drop(self) {
        let Graph {
            tables: _,
            links: _,
            alloc: _,
        } = self;
    }
}

impl Model for Graph {
    ghost use Rattle.std.specs.Prelude.{List};
    ghost use Rattle.snb_schema.specs.declared.row.Row.{Row};
    ghost use Rattle.snb_graph.specs.Additions.{IsKept};

    ghost Value = { List Row };

    ghost view = { λ g. g.tables.rows };

    ghost invariant = { λ g. IsKept g.tables g.links };
}

impl Graph {
    /// A graph without rows. Takes no memory.
    pub fn empty(alloc: Global) -> Graph
        ensures { result ≡ [] }
    {
        Graph {
            tables: Tables::empty(alloc),
            links: Indexes::empty(alloc),
            alloc,
        }
    }

    /// The graph of the rows of tables, all of them frozen, with the links that are walked along: in the time of a
    /// sort. An error says that memory doesn't suffice.
    pub fn of(alloc: Global, mut tables: Tables) -> Result<Graph, AllocError>
        ensures { IfOk result (λ graph. graph ≡ tables.rows) }
    {
        tables.freeze()?;
        let links = Indexes::of(alloc, &tables)?;
        links.known();
        Ok(Graph {
            tables,
            links,
            alloc,
        })
    }

    /// The rows are a graph.
    pub fn known(&self)
        ensures { IsGraph self.now }
    {
        self.tables.known();
    }

    /// The tables that have the rows. `Soundness` of `snb_graph_sound` looks at them.
    pub fn tables(&self) -> &Tables
        ensures { result.now.rows ≡ self.now }
    {
        &self.tables
    }

    /// Where the graph takes its memory.
    pub fn allocator(&self) -> &Global {
        &self.alloc
    }

    /// The person of this id.
    pub fn person(&self, id: u64) -> Option<&Person>
        ensures found { IfSome (option_copied result) (λ n. (n.id ≡ id) × Contains self.now (row.Person n)) }
        ensures held { IsSome result ↔ HasKey self.now (node_key kinds.Person id) }
    {
        self.tables.person(id)
    }

    /// The place of this id.
    pub fn place(&self, id: u64) -> Option<&Place>
        ensures found { IfSome (option_copied result) (λ n. (n.id ≡ id) × Contains self.now (row.Place n)) }
        ensures held { IsSome result ↔ HasKey self.now (node_key kinds.Place id) }
    {
        self.tables.place(id)
    }

    /// The class of tags of this id.
    pub fn tag_class(&self, id: u64) -> Option<&Named>
        ensures found { IfSome (option_copied result) (λ n. (n.id ≡ id) × Contains self.now (row.TagClass n)) }
        ensures held { IsSome result ↔ HasKey self.now (node_key kinds.TagClass id) }
    {
        self.tables.tag_class(id)
    }

    /// The tag of this id.
    pub fn tag(&self, id: u64) -> Option<&Named>
        ensures found { IfSome (option_copied result) (λ n. (n.id ≡ id) × Contains self.now (row.Tag n)) }
        ensures held { IsSome result ↔ HasKey self.now (node_key kinds.Tag id) }
    {
        self.tables.tag(id)
    }

    /// The organisation of this id.
    pub fn organisation(&self, id: u64) -> Option<&Organisation>
        ensures found { IfSome (option_copied result) (λ n. (n.id ≡ id) × Contains self.now (row.Organisation n)) }
        ensures held { IsSome result ↔ HasKey self.now (node_key kinds.Organisation id) }
    {
        self.tables.organisation(id)
    }

    /// The forum of this id.
    pub fn forum(&self, id: u64) -> Option<&Forum>
        ensures found { IfSome (option_copied result) (λ n. (n.id ≡ id) × Contains self.now (row.Forum n)) }
        ensures held { IsSome result ↔ HasKey self.now (node_key kinds.Forum id) }
    {
        self.tables.forum(id)
    }

    /// The post of this id.
    pub fn post(&self, id: u64) -> Option<&Post>
        ensures found { IfSome (option_copied result) (λ n. (n.id ≡ id) × Contains self.now (row.Post n)) }
        ensures held { IsSome result ↔ HasKey self.now (node_key kinds.Post id) }
    {
        self.tables.post(id)
    }

    /// The comment of this id.
    pub fn comment(&self, id: u64) -> Option<&Comment>
        ensures found { IfSome (option_copied result) (λ n. (n.id ≡ id) × Contains self.now (row.Comment n)) }
        ensures held { IsSome result ↔ HasKey self.now (node_key kinds.Comment id) }
    {
        self.tables.comment(id)
    }

    /// Whether the graph holds just this row. Takes no memory.
    /// The condition: the row is one that its table can have.
    pub fn same_row(&self, row: &Row) -> bool
        requires { IsTableRow row.now }
        ensures { IsTrue result ↔ Contains self.now row.now }
    {
        self.tables.same_row(row)
    }

    /// How many rows a table has. It counts those of a table of edges or words one by one.
    pub fn count(&self, table: Table) -> u64
        ensures { result ≡ count self.now table }
    {
        self.tables.count(table)
    }

    /// Copies of the rows of a table, in the order of their keys, each as a `Result`. After an `Err`
    /// there are no more.
    pub fn each(&self, table: Table) -> TableRows<'_>
        ensures { result ≡ rows self.now table }
    {
        self.tables.each(table)
    }

    /// The rows of a table, in the order of their keys. Takes no memory.
    pub fn lent(&self, table: Table) -> LentRows<'_>
        ensures { result ≡ rows self.now table }
    {
        self.tables.lent(table)
    }

    /// The persons, each with their id, by rising id. Takes no memory.
    pub fn persons(&self) -> Entries<'_, u64, Person>
        ensures { map (λ e. row.Person e.1) result ≡ rows self.now table.Person }
    {
        self.tables.persons()
    }

    /// How many rows there are.
    pub fn rows(&self) -> u64
        ensures { result ≡ length self.now }
    {
        self.tables.rows()
    }

    /// The emails or languages of a person, in byte order. Takes no memory.
    /// The condition: the table is that of emails or of languages.
    pub fn words(&self, table: Table, person: u64) -> Words<'_>
        requires { shape table ≡ shapes.Word }
        ensures { result ≡ words_of self.now table person }
    {
        self.tables.words(table, person)
    }

    /// The other end of the edge of this id, in a table whose key is one id.
    /// The conditions: the table is one of edges without dates and years, and its key is one id.
    pub fn one(&self, table: Table, id: u64) -> Option<u64>
        requires shape { shape table ≡ shapes.Link }
        requires one_id { key_columns table ≢ columns.FirstTwo }
        ensures found { IfSome result (λ other. Contains self.now (link_of (key_columns table) table id 0 other)) }
        ensures held { IsSome result ↔ HasKey self.now (table, id, 0, []) }
    {
        self.tables.one(table, id)
    }

    /// The friends of a person with the dates of their friendships, by rising id. Takes no memory.
    pub fn friends(&self, person: u64) -> Links<'_>
        ensures { IsWalkOver (friends self.now person) (rest result) }
    {
        let _ = &self.tables;
        self.links.pairs(Walk::Friends, person)
    }

    /// The messages of a person with their creation dates, by rising id. Takes no memory.
    pub fn messages(&self, person: u64) -> Links<'_>
        ensures { IsWalkOver (messages self.now person) (rest result) }
    {
        let _ = &self.tables;
        self.links.pairs(Walk::Messages, person)
    }

    /// The comments that reply to a message with their creation dates, by rising id. Takes no memory.
    pub fn replies(&self, message: u64) -> Links<'_>
        ensures { IsWalkOver (replies self.now message) (rest result) }
    {
        let _ = &self.tables;
        self.links.pairs(Walk::Replies, message)
    }

    /// The persons who like a message with the dates of their likes, by rising id: those who like the
    /// post of this id, if it is held, and else those who like the comment. Where each node that a row
    /// refers to is held, these are all. Takes no memory.
    pub fn likes(&self, message: u64) -> Links<'_>
        ensures post { HasKey self.now (node_key kinds.Post message)
            → IsWalkOver (likes_in self.now table.PersonLikesPost message) (rest result) }
        ensures comment { ¬ HasKey self.now (node_key kinds.Post message)
            → IsWalkOver (likes_in self.now table.PersonLikesComment message) (rest result) }
        ensures held { IsHeld self.now → IsWalkOver (likes self.now message) (rest result) }
    {
        match self.tables.post(message) {
            Some(_) => self.links.pairs(Walk::PostLikes, message),
            None => self.links.pairs(Walk::CommentLikes, message),
        }
    }

    /// The organisations where a person works with the years since when, by rising id. Takes no
    /// memory.
    pub fn work(&self, person: u64) -> Links<'_>
        ensures { rest result ≡ work self.now person }
    {
        let _ = &self.tables;
        self.links.pairs(Walk::Work, person)
    }

    /// The organisations where a person studied with the years since when, by rising id. Takes no
    /// memory.
    pub fn study(&self, person: u64) -> Links<'_>
        ensures { rest result ≡ study self.now person }
    {
        let _ = &self.tables;
        self.links.pairs(Walk::Study, person)
    }

    /// Adds a row. `Duplicate` says that a row of its slot is held, and `Memory` that memory doesn't
    /// suffice. After either the graph is as it was. It doesn't look at references. Of a graph that was never
    /// frozen the rows wait in the order in which they came: a look-up finds each at once, but a walk looks at
    /// all of them for each next one, so such a graph is frozen before it is walked.
    /// The condition: the row is one that its table can have.
    pub fn insert_row(&mut self, row: Row) -> Result<(), Insert>
        requires { IsTableRow row }
        ensures ok { OnOk result (HasGained self.old (row ∷ []) self.new) }
        ensures duplicate { (result ≡ Err Insert.Duplicate) ↔ HasSlot self.old (slot_of row) }
        ensures err { OnErr result (self.new ≡ self.old) }
    {
        insert(&mut self.tables, &mut self.links, row, Layer::Frozen)
    }

    /// Adds all of the rows, or none. `Duplicate` says that a row of the slot of one of them is held,
    /// or that two of them have one slot; `Memory` that memory doesn't suffice. After either the graph
    /// is as it was. It doesn't look at references.
    /// The condition: each row is one that its table can have.
    pub fn insert_all(&mut self, rows: Vec<Row>) -> Result<(), Insert>
        requires { All IsTableRow rows.items }
        ensures ok { OnOk result (HasGained self.old rows.items self.new) }
        ensures new { OnOk result (AreNew self.old rows.items) }
        ensures duplicate { result ≡ Err Insert.Duplicate → HasClash self.old rows.items }
        ensures err { OnErr result (self.new ≡ self.old) }
    {
        self.tables.known();
        self.tables.shared();
        let mut added = Vec::new(*rows.allocator());
        match insert_each(&mut self.tables, &mut self.links, rows, &mut added) {
            Ok(()) => Ok(()),
            Err(why) => {
                take_all(&mut self.tables, &mut self.links, added);
                Err(why)
            }
        }
    }

    /// Adds all of the rows, which are new, or none. It tests nothing, and searches for the place of each row
    /// alone. An error says that memory doesn't suffice, and then the graph is as it was. It doesn't look at
    /// references.
    /// The conditions: each row is one that its table can have; no row of the slot of one of them is held, and no
    /// two of them have one slot; and if the first is a message, no edge that is held leads from it.
    pub fn insert_new(&mut self, rows: Vec<Row>) -> Result<(), AllocError>
        requires shaped { All IsTableRow rows.items }
        requires new { AreNew self.old rows.items }
        requires alone { IsFirstAlone self.old rows.items }
        ensures ok { OnOk result (HasGained self.old rows.items self.new) }
        ensures err { OnErr result (self.new ≡ self.old) }
    {
        self.tables.known();
        self.tables.shared();
        let mut added = Vec::with_capacity(*rows.allocator(), rows.len())?;
        match move_each(&mut self.tables, &mut self.links, rows, &mut added) {
            Ok(()) => Ok(()),
            Err(error) => {
                take_all(&mut self.tables, &mut self.links, added);
                Err(error)
            }
        }
    }

    /// Makes all rows frozen, so that copies of the graph share them; rows that waited are put in order, and walks
    /// over them take no longer than over others. The rows stay, whatever it answers: an error says that memory
    /// doesn't suffice, and then some of them may be frozen and others not.
    pub fn freeze(&mut self) -> Result<(), AllocError>
        ensures { self.new ≡ self.old }
    {
        self.tables.freeze()?;
        self.links.freeze()
    }

    /// A graph with the same rows, which shares those that are frozen and copies the others. An error says
    /// that memory doesn't suffice.
    pub fn try_copy(&self) -> Result<Graph, AllocError>
        ensures { IfOk result (λ copy. copy ≡ self.now) }
    {
        Ok(Graph {
            tables: self.tables.try_copy()?,
            links: self.links.try_copy()?,
            alloc: self.alloc,
        })
    }
}

impl Held for Graph {
    ghost use Rattle.snb_graph_model.specs.Graphs.{HoldsKey};

    ghost holds = { HoldsKey };

    fn has(&self, key: &Key) -> bool {
        self.tables.has(key)
    }
}
