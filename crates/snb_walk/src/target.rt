//! Where a walk can go, how it picks, and why it stops.

use snb_base::TryCopy;
use std::alloc::AllocError;

/// Whom or what the reads of a step ask about.
#[derive(Clone, Copy)]
pub enum Target {
    /// A person, whom IS1, IS2 and IS3 ask about.
    Person { id: u64 },
    /// A message, which IS4, IS5, IS6 and IS7 ask about.
    Message { id: u64 },
}

impl TryCopy for Target {
    fn try_copy(&self) -> Result<Target, AllocError> {
        Ok(*self)
    }
}

/// Why a walk stops.
#[derive(Clone, Copy)]
pub enum Stop {
    /// The chance has fallen to 0, or the first word of the step isn't below it.
    Chance,
    /// Fewer words are left than the two that a step takes.
    Words,
    /// The answers just before have no targets.
    Nowhere,
}

/// How the next target is picked.
#[derive(Clone, Copy)]
pub enum Pick {
    /// The one at the word modulo the number of targets.
    Modulo,
    /// The last one.
    Last,
}
