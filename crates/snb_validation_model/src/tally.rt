//! What is found over cases.

use crate::difference::Difference;

/// What was found over cases.
pub struct Tally {
    /// How many of the cases are reads.
    pub reads: u64,
    /// The first case whose reply differs from the graph's, if there is one.
    pub first: Option<Difference>,
}

impl Drop for Tally {
    fn drop(self) {
        let Tally { reads: _, first: _ } = self;
    }
}
