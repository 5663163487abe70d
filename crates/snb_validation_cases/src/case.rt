//! What a line of a file of cases says.

use snb_base::Text;
use snb_read_model::Reply;
use snb_schema::{Line, Query};

/// One case: something to insert, or something to ask.
pub enum Case {
    /// The insert of this line, which is line 1 of its text.
    Insert { line: Line },
    /// The query, and the reply that is due to it.
    Ask { query: Query, reply: Reply<Text> },
}

impl Drop for Case {
    fn drop(self) {
        match self {
            Case::Insert { line: _ } => {}
            Case::Ask { query: _, reply: _ } => {}
        }
    }
}

/// A case of a file.
pub struct CaseAt {
    /// The line of its file, counted from 1.
    pub line: u32,
    /// What that line says.
    pub case: Case,
}

impl Drop for CaseAt {
    fn drop(self) {
        let CaseAt { line: _, case: _ } = self;
    }
}

/// Why a text isn't read as a case.
#[derive(Clone, Copy)]
pub enum CaseFault {
    /// It spells none.
    Bad,
    /// Memory ran out.
    Memory,
}
