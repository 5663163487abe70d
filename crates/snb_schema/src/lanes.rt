//! The lines of the update streams, lane by lane.

ghost use Rattle.std.specs.Prelude.{◌≡◌, ◌<◌, ◌≤◌, ◌++◌, ◌∷◌, [], length, slice_index_or, OnOk, OnErr};

use crate::limits::MAX_LANES;
use crate::op::Line;
use std::alloc::{AllocError, Global};
use std::marker::Model;

// The lines of one lane. A contract sees the list.
struct Lane {
    lines: Vec<Line>,
}

impl Drop for Lane {
    fn drop(self) {
        let Lane { lines: _ } = self;
    }
}

impl Model for Lane {
    ghost use Rattle.std.specs.Prelude.{List};
    ghost use Rattle.snb_schema.specs.declared.op.Line.{Line as AnyLine};

    ghost Value = { List AnyLine };

    ghost view = { λ l. l.lines.items };
}

impl Lane {
    // The lines in order.
    fn as_slice(&self) -> &[Line]
        ensures { result.now ≡ self.now }
    {
        &self.lines
    }
}

/// The lines of each lane of persons, and of each lane of the other inserts, the forum lanes: at most
/// `MAX_LANES` of each kind.
///
/// A contract sees the two lists of lanes, each a list of lines.
pub struct Lanes {
    persons: Vec<Lane>,
    forums: Vec<Lane>,
}

impl Drop for Lanes {
    fn drop(self) {
        let Lanes {
            persons: _,
            forums: _,
        } = self;
    }
}

impl Model for Lanes {
    ghost use Rattle.snb_schema.specs.LineLanes.{LineLanes, AreFew};

    ghost Value = { LineLanes };

    ghost view = { λ l. record { persons = l.persons.items; forums = l.forums.items } };

    ghost invariant = { λ l. AreFew (record { persons = l.persons.items; forums = l.forums.items }) };
}

impl Lanes {
    /// No lanes. Takes no memory.
    pub fn new(alloc: Global) -> Lanes
        ensures persons { result.persons ≡ [] }
        ensures forums { result.forums ≡ [] }
    {
        Lanes {
            persons: Vec::new(alloc),
            forums: Vec::new(alloc),
        }
    }

    /// Appends a lane of persons, which takes the next number. There are fewer than `MAX_LANES` before.
    /// Want of memory leaves the lanes as they
    /// were, and drops the lines.
    pub fn push_person(&mut self, lines: Vec<Line>) -> Result<(), AllocError>
        requires { length self.old.persons < MAX_LANES }
        ensures ok { OnOk result
            (self.new ≡ record { persons = self.old.persons ++ lines.items ∷ []; forums = self.old.forums }) }
        ensures err { OnErr result (self.new ≡ self.old) }
    {
        self.persons.push(Lane { lines })?;
        Ok(())
    }

    /// Appends a lane of the other inserts, which takes the next number. There are fewer than
    /// `MAX_LANES` before. Want of memory leaves the lanes as they were, and drops the lines.
    pub fn push_forum(&mut self, lines: Vec<Line>) -> Result<(), AllocError>
        requires { length self.old.forums < MAX_LANES }
        ensures ok { OnOk result
            (self.new ≡ record { persons = self.old.persons; forums = self.old.forums ++ lines.items ∷ [] }) }
        ensures err { OnErr result (self.new ≡ self.old) }
    {
        self.forums.push(Lane { lines })?;
        Ok(())
    }

    /// The number of lanes of persons.
    pub fn persons(&self) -> u32
        ensures value { result ≡ length self.now.persons }
        ensures few { result ≤ MAX_LANES }
    {
        self.persons.len() as u32
    }

    /// The number of lanes of the other inserts.
    pub fn forums(&self) -> u32
        ensures value { result ≡ length self.now.forums }
        ensures few { result ≤ MAX_LANES }
    {
        self.forums.len() as u32
    }

    /// The lines of the lane of persons of this number, counted from 0. The lane is there.
    pub fn person(&self, lane: u32) -> &[Line]
        requires { lane < length self.now.persons }
        ensures { result.now ≡ slice_index_or self.now.persons lane [] }
    {
        self.persons[lane as usize].as_slice()
    }

    /// The lines of the lane of other inserts of this number, counted from 0. The lane is there.
    pub fn forum(&self, lane: u32) -> &[Line]
        requires { lane < length self.now.forums }
        ensures { result.now ≡ slice_index_or self.now.forums lane [] }
    {
        self.forums[lane as usize].as_slice()
    }
}
