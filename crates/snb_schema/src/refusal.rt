//! Why an input is refused.

use crate::file::FileId;
use crate::query::ReadKind;
use crate::table::{Kind, Table};

/// A node that is referred to and isn't there.
#[derive(Clone, Copy, PartialEq, Eq)]
pub struct Missing {
    pub kind: Kind,
    pub id: u64,
}

/// What there are too many of.
#[derive(Clone, Copy)]
pub enum Counted {
    Rows,
    Reads,
    Parts,
    Lanes,
}

/// The first thing wrong with an input. Lines and columns are counted from 1; column 0 stands for a
/// wrong number of fields.
#[derive(Clone, Copy)]
pub enum Refusal {
    /// The file isn't there.
    Absent {
        file: FileId,
    },
    /// The bytes up to some line of the file are too many.
    TooLarge {
        file: FileId,
    },
    /// No line of the file has a byte, where a header is due.
    NoHeader {
        file: FileId,
    },
    /// The line isn't in its grammar, in this column first.
    BadLine {
        file: FileId,
        line: u32,
        column: u32,
    },
    /// The line isn't UTF-8.
    NotUtf8 {
        file: FileId,
        line: u32,
    },
    /// The line's key is held already.
    Duplicate {
        file: FileId,
        line: u32,
    },
    /// The column's id isn't held.
    Dangling {
        file: FileId,
        line: u32,
        column: u32,
    },
    /// The node lacks a row that each of its kind has.
    Lacks {
        table: Table,
        id: u64,
        edge: Table,
    },
    /// The comment's chain of parents has no end at a post.
    Cycle {
        comment: u64,
    },
    /// The line's t is below that of the line before.
    OutOfOrder {
        file: FileId,
        line: u32,
    },
    /// The line's t_d isn't below its t.
    LateDependency {
        file: FileId,
        line: u32,
    },
    /// The line refers to a node that is neither held nor inserted in time.
    Unmet {
        file: FileId,
        line: u32,
        missing: Missing,
    },
    /// There are too many of something.
    TooMany {
        what: Counted,
    },
    /// The parameter file has no data line.
    NoParameters {
        file: FileId,
    },
    /// A kind of read has no handler in the table that reads are to be answered by.
    Unregistered {
        kind: ReadKind,
    },
}
