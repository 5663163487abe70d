//! A message of one of some persons.

/// A message with its author, as complex reads 2 and 9 list it.
#[derive(Clone, Copy)]
pub struct Sent {
    /// Who wrote it.
    pub person: u64,
    pub message: u64,
    /// When, in milliseconds since 1970-01-01 UTC.
    pub date: u64,
}
