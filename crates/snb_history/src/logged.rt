//! What a log tells.

use crate::event::Event;

/// An event as a log tells it.
#[derive(Clone, Copy)]
pub struct Logged {
    /// What happened.
    pub event: Event,
    /// How many rows the read gave that the event finishes, and 0 where it finishes an insert. A log of
    /// version 2 has it at each Finish, and one of version 1 nowhere.
    pub rows: Option<u32>,
}

/// What the header of a log says.
#[derive(Clone, Copy)]
pub struct Header {
    /// The version of the log: 1 or 2.
    pub version: u32,
    /// How many workers the run had.
    pub workers: u32,
    /// How many operations its plan has. A log of version 2 has it, and one of version 1 doesn't.
    pub operations: Option<u32>,
}
