//! A stored policy that picks the next target.

ghost use Rattle.std.specs.Prelude.{◌≡◌, ◌<◌, length};
ghost use Rattle.snb_walk.specs.Picks.{index_of};

use crate::target::{Pick, Target};

/// A closure that picks one of the targets by a word, and answers its index.
pub type Call = Box<dyn Fn(&[Target], u64) -> usize>;

/// What picks the next target: a closure, and what is known of it. On every list of targets that isn't empty and
/// every word it may be called, and answers the index of the pick.
pub struct Policy {
    /// The pick whose index the closure answers.
    pub pick: Pick,
    call: Call,
    ghost callable: { (ts : _) (w : _) → 0 < length ts.now → pre call ts w },
    ghost picks: { (ts : _) (w i : _) → 0 < length ts.now → post call ts w i → i ≡ index_of pick (length ts.now) w },
}

impl Drop for Policy {
    fn drop(self) {
        let Policy { pick: _, call: _ } = self;
    }
}

impl Policy {
    /// The policy of this pick that asks this closure. Takes no memory.
    ///
    /// The conditions: on every list of targets that isn't empty and every word the closure may be called, and it
    /// answers the index of the pick.
    pub fn new(pick: Pick, call: Call) -> Policy
        requires callable { (ts : _) (w : _) → 0 < length ts.now → pre call ts w }
        requires picks { (ts : _) (w i : _) → 0 < length ts.now → post call ts w i
            → i ≡ index_of pick (length ts.now) w }
        ensures { result.pick ≡ pick }
    {
        Policy { pick, call }
    }

    /// The index of the target that it picks by this word. Takes no memory of its own; the closure may.
    /// The condition: there are targets.
    pub fn index(&self, targets: &[Target], word: u64) -> usize
        requires { 0 < length targets.now }
        ensures { result ≡ index_of self.now.pick (length targets.now) word }
    {
        (self.call)(targets, word)
    }
}
