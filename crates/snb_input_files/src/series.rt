//! Files of one kind.

use snb_schema::{Counted, FileKind};

/// The files of one kind, by their parts from 0 on up to the first that isn't held.
///
/// The names of parameter files, of the log and of the cases don't tell a part. Of such a kind `most` is
/// 1 and `what` is `None`, since a look for a further part would find the same file again.
#[derive(Clone, Copy)]
pub struct Series {
    /// What the files hold.
    pub kind: FileKind,
    /// Whether the first must be held.
    pub needed: bool,
    /// How many there may be at most.
    pub most: u32,
    /// What there are too many of where there is one more than that. With `None` no further one is
    /// looked for.
    pub what: Option<Counted>,
}
