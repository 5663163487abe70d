//! A count of a log that isn't right.

/// A Finish whose count of rows is wrong.
#[derive(Clone, Copy)]
pub struct Miscount {
    /// The number of the event, from 0.
    pub event: u32,
    /// How many rows the first answer of its read has; 0 where it finishes an insert.
    pub needs: u32,
    /// How many the log has.
    pub found: u32,
}
