//! The replies to the reads of a run.

ghost use Rattle.std.specs.Prelude.{◌≡◌, ◌≢◌, ℕ, ◌<◌, ◌≤◌, [], All, AllPairs, Any, Contains, IfOk, MatchBool, OnOk, OnErr, length, slice_index_or};
ghost use Rattle.snb_answered.specs.declared.done.Answered.{Answered as AnyAnswered};
ghost use Rattle.snb_answered.specs.Replies.{HasAdded, HasOne};

use snb_base::{OwnedList, TryCopy, list_of};
use std::alloc::{AllocError, Global};
use std::marker::Model;

/// What a read was replied: the number of its operation, how many events of the history the replica had
/// taken that it was answered from, how many rows the first answer of the reply has, and the compact JSON
/// text of the reply.
pub struct Answered {
    pub op: u32,
    pub front: u32,
    pub rows: u32,
    pub text: OwnedList<u8>,
}

// Written out, so that letting one go is one call wherever it happens.
impl Drop for Answered {
    fn drop(self) {
        let Answered {
            op: _,
            front: _,
            rows: _,
            text: _,
        } = self;
    }
}

impl TryCopy for Answered {
    fn try_copy(&self) -> Result<Answered, AllocError> {
        Ok(Answered {
            op: self.op,
            front: self.front,
            rows: self.rows,
            text: self.text.try_map(|byte| Ok(*byte))?,
        })
    }
}

/// The replies to the reads of a run. A contract sees them by rising operation.
pub struct Done {
    items: Vec<Answered>,
}

impl Drop for Done {
    fn drop(self) {
        let Done { items: _ } = self;
    }
}

impl Model for Done {
    ghost use Rattle.std.specs.Prelude.{◌<◌, AllPairs, List};
    ghost use Rattle.snb_answered.specs.declared.done.Answered.{Answered as AnyAnswered};

    ghost Value = { List AnyAnswered };

    ghost view = { λ v. v.items.items };

    ghost invariant = { λ v. AllPairs (λ one other. one.op < other.op) v.items.items };
}

impl Done {
    /// No replies. Takes no memory.
    pub fn new(alloc: Global) -> Done
        ensures { result ≡ [] }
    {
        Done {
            items: Vec::new(alloc),
        }
    }

    /// They are by rising operation.
    pub fn known(&self)
        ensures { AllPairs (λ one other. one.op < other.op) self.now }
    {
        let _ = &self.items;
    }

    /// The replies, by rising operation.
    pub fn as_slice(&self) -> &[Answered]
        ensures { result.now ≡ self.now }
    {
        &self.items
    }

    // How many of the replies are to operations of no greater number.
    fn place_of(&self, op: u32) -> usize
        ensures within { result ≤ length self.now }
        ensures before { (k : ℕ) (d : AnyAnswered) → k < result → (slice_index_or self.now k d).op ≤ op }
        ensures after { (k : ℕ) (d : AnyAnswered) → result ≤ k → k < length self.now
            → op < (slice_index_or self.now k d).op }
    {
        let mut place = self.items.len();
        while place > 0 && self.items[place - 1].op > op {
            place -= 1;
        }
        place
    }

    /// Adds a reply in its place, to an operation that has none yet (`new`). Want of memory leaves all as it
    /// was.
    pub fn push(&mut self, one: Answered) -> Result<(), AllocError>
        requires new { All (λ other. other.op ≢ one.op) self.old }
        ensures ok { OnOk result (HasAdded one self.old self.new) }
        ensures err { OnErr result (self.new ≡ self.old) }
    {
        let place = self.place_of(one.op);
        self.items.insert(place, one)?;
        Ok(())
    }

    // Whether there is a reply to the operation.
    fn has(&self, op: u32) -> bool
        ensures { MatchBool result (Any (λ other. other.op ≡ op) self.now) (All (λ other. other.op ≢ op) self.now) }
    {
        let place = self.place_of(op);
        place > 0 && self.items[place - 1].op == op
    }

    // Adds a reply, where there is none to its operation. Want of memory leaves all as it was.
    fn add_new(&mut self, one: Answered) -> Result<(), AllocError>
        ensures { OnOk result (HasOne one self.old self.new) }
    {
        if self.has(one.op) {
            return Ok(());
        }
        self.push(one)
    }

    /// These replies, by rising operation; of several to one operation, one.
    pub fn of(alloc: Global, mut items: Vec<Answered>) -> Result<Done, AllocError>
        ensures each { IfOk result (λ done. All (λ one. Contains items.items one) done) }
        ensures all { IfOk result (λ done. All (λ one. Any (λ other. other.op ≡ one.op) done) items.items) }
    {
        items.sort_unstable_by_key(|one| one.op);
        let mut done = Done::new(alloc);
        for one in items {
            done.add_new(one)?;
        }
        Ok(done)
    }

    /// Equal replies of one's own.
    pub fn try_copy(&self) -> Result<Done, AllocError>
        ensures { IfOk result (λ copy. copy ≡ self.now) }
    {
        let alloc = *self.items.allocator();
        let items = list_of(alloc, self.items.as_slice(), |one| one.try_copy())?.into_vec();
        Ok(Done { items })
    }

    /// The replies, by rising operation. Takes no memory.
    pub fn into_items(self) -> Vec<Answered>
        ensures { result.items ≡ self }
    {
        let Done { items } = self;
        items
    }
}
