//! Where a reply differs from the one that is due.

use snb_base::Text;
use snb_read_model::Reply;

/// A case whose reply isn't the one that the graph gives.
pub struct Difference {
    /// The line of the case in its file, counted from 1.
    pub line: u32,
    /// The reply that the case has.
    pub expected: Reply<Text>,
    /// The reply that the graph gives.
    pub given: Reply<Text>,
}

impl Drop for Difference {
    fn drop(self) {
        let Difference {
            line: _,
            expected: _,
            given: _,
        } = self;
    }
}
