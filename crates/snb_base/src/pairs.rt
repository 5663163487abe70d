//! Pairs of an id and a year.

ghost use Rattle.std.specs.Prelude.{◌≡◌, ◌∷◌, ◌++◌, [], IfOk, OnOk, OnErr};

use crate::owned_list::OwnedList;
use std::alloc::{AllocError, Global};
use std::marker::Model;

/// Pairs of an id and a year, in order. A contract sees them as a list of pairs.
pub struct Pairs {
    list: OwnedList<(u64, u32)>,
}

impl Drop for Pairs {
    fn drop(self) {
        let Pairs { list: _ } = self;
    }
}

impl Model for Pairs {
    ghost use Rattle.std.specs.Prelude.{ℕ, List};

    ghost Value = { List (ℕ × ℕ) };

    ghost view = { λ pairs. pairs.list };
}

impl Pairs {
    /// No pairs. Takes no memory.
    pub fn new(alloc: Global) -> Pairs
        ensures { result ≡ [] }
    {
        Pairs {
            list: OwnedList::new(alloc),
        }
    }

    /// The pairs in order.
    pub fn as_slice(&self) -> &[(u64, u32)]
        ensures { result.now ≡ self.now }
    {
        self.list.as_slice()
    }

    /// Appends the pair of this id and this year. Want of memory leaves the pairs as they were.
    pub fn push(&mut self, id: u64, year: u32) -> Result<(), AllocError>
        ensures ok { OnOk result (self.new ≡ self.old ++ (id, year) ∷ []) }
        ensures err { OnErr result (self.new ≡ self.old) }
    {
        self.list.push((id, year))
    }

    /// Equal pairs of one's own.
    pub fn try_copy(&self) -> Result<Pairs, AllocError>
        ensures { IfOk result (λ copy. copy ≡ self.now) }
    {
        Ok(Pairs {
            list: self.list.try_copy()?,
        })
    }
}
