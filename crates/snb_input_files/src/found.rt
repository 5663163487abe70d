//! What a look for a file found.

use crate::load::Used;

/// What a look for a file found.
#[derive(Drop)]
pub enum Found<P> {
    /// The file isn't held. What takes the items is as it was.
    Absent {
        /// What takes the items.
        file_sink: P,
    },
    /// Nothing is wrong with the file, and the items of all its data lines are taken.
    Whole {
        /// What takes the items.
        file_sink: P,
        /// How much was read, this file with those before.
        used: Used,
    },
}
