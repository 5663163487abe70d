//! What the updates so far add, by the keys that they take.

ghost use Rattle.std.specs.Prelude.{◌≡◌, Option, None, OnOk};
ghost use Rattle.snb_schema.specs.declared.key.Key.{Key as AnyKey};
ghost use Rattle.snb_schema.specs.RowKeys.{kind_table};
ghost use Rattle.snb_schema.specs.Inserts.{listed};
ghost use Rattle.snb_plan.specs.Added.{mark_at, slot_of, HasAdded, HasMore, HasPut};

use snb_schema::{Key, Keys, Kind, Line, Missing, Table, added_node, keys_of};
use std::alloc::{AllocError, Global};
use std::collections::BTreeMap;

// A key as it stands in the map: the table of its rows, and its ids, 0 where there is no second.
#[derive(Clone, Copy, PartialEq, Eq, PartialOrd, Ord)]
struct Slot {
    table: Table,
    first: u64,
    second: u64,
}

// The table of the nodes of a kind.
fn kind_table(kind: Kind) -> Table
    ensures { result ≡ kind_table kind }
{
    match kind {
        Kind::Place => Table::Place,
        Kind::TagClass => Table::TagClass,
        Kind::Tag => Table::Tag,
        Kind::Organisation => Table::Organisation,
        Kind::Person => Table::Person,
        Kind::Forum => Table::Forum,
        Kind::Post => Table::Post,
        Kind::Comment => Table::Comment,
    }
}

// How the key stands in the map.
fn slot_of(key: &Key) -> Slot
    ensures { result ≡ slot_of key.now }
{
    let (table, first, second) = match key {
        Key::Node { kind, id } => (kind_table(*kind), *id, 0),
        Key::Knows { low, high } => (Table::PersonKnowsPerson, *low, *high),
        Key::LikesPost { person, post } => (Table::PersonLikesPost, *person, *post),
        Key::LikesComment { person, comment } => (Table::PersonLikesComment, *person, *comment),
        Key::Member { forum, person } => (Table::ForumHasMemberPerson, *forum, *person),
    };
    Slot {
        table,
        first,
        second,
    }
}

/// What is kept of an update: its lane, its t, and the node that it adds, if it adds one.
#[derive(Clone, Copy)]
pub struct Mark {
    pub lane: u32,
    pub t: u64,
    pub node: Option<Missing>,
}

/// The mark of each update so far, by the keys that it takes.
pub struct Added {
    marks: BTreeMap<Slot, Mark>,
}

impl Drop for Added {
    fn drop(self) {
        let Added { marks: _ } = self;
    }
}

impl Added {
    /// No updates. Takes no memory.
    pub fn new(alloc: Global) -> Added
        ensures { (key : AnyKey) → mark_at result key ≡ None }
    {
        Added {
            marks: BTreeMap::new(alloc),
        }
    }

    /// The mark of the update that took the key, if one did.
    pub fn get(&self, key: &Key) -> Option<Mark>
        ensures { result ≡ mark_at self.now key.now }
    {
        self.marks.get(&slot_of(key)).copied()
    }

    // Keeps the mark at the key.
    fn put(&mut self, key: &Key, mark: Mark) -> Result<(), AllocError>
        ensures { OnOk result (HasPut self.old key.now mark self.new) }
    {
        self.marks.insert(slot_of(key), mark)?;
        Ok(())
    }

    // Keeps the mark at each of the keys.
    fn put_all(&mut self, keys: &Keys, mark: Mark) -> Result<(), AllocError>
        ensures { OnOk result (HasMore self.old (listed keys.now) mark self.new) }
    {
        self.put(&keys.one, mark)?;
        if let Some(other) = &keys.other {
            self.put(other, mark)?;
        }
        Ok(())
    }

    /// Adds an update of the lane.
    pub fn add(&mut self, lane: u32, line: &Line) -> Result<(), AllocError>
        ensures { OnOk result (HasAdded self.old lane line.now self.new) }
    {
        let mark = Mark {
            lane,
            t: line.t,
            node: added_node(&line.op),
        };
        self.put_all(&keys_of(&line.op), mark)
    }
}
