//! What a log says.

use snb_history::{Header, Logged};

/// What a log says.
pub struct Log {
    /// Its version, how many workers there were, and, in version 2, how many operations its plan has.
    pub header: Header,
    /// What happened, with the counts of rows in version 2.
    pub logged: Vec<Logged>,
}

impl Drop for Log {
    fn drop(self) {
        let Log {
            header: _,
            logged: _,
        } = self;
    }
}
