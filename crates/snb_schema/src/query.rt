//! The reads of the workload, and the table of what is fixed of each kind.

ghost use Rattle.std.specs.Prelude.{◌≡◌, ◌↔◌, ◌≤◌, IsTrue, MatchOption, length, map};
ghost use Rattle.std.specs.List.{AllByRecursion};
ghost use Rattle.snb_schema.specs.CodeLayouts.{IsReadLayoutOf};
ghost use Rattle.snb_schema.specs.Queries.{IsComplex, complex_kind, numbered};
ghost use Rattle.snb_schema.specs.QueryPlaces.{index_in, place_of};
ghost use Rattle.snb_schema.specs.ReadKinds.{number_of_kind, parameter_columns, read_kind_of, read_word};
ghost use Rattle.snb_schema.specs.declared.query.ReadKind.{ReadKind as AnyKind};

use crate::column::Column;
use crate::limits::{MAX_ID, MAX_YEAR};
use CellKind::{Flag, Number, Stays, Texts, Words};
use ReadKind::{Ic1, Ic2, Ic7, Ic8, Ic9, Ic11, Ic13, Is1, Is2, Is3, Is4, Is5, Is6, Is7};
use TargetColumn::{MessageAt, PersonAt};
use snb_base::Text;

/// A read of the Interactive workload of LDBC's Social Network Benchmark: the short reads are IS1 to
/// IS7, and the complex ones are named IC. Dates are in milliseconds since 1970-01-01 UTC.
pub enum Query {
    /// Short read 1: the profile of a person.
    Is1 {
        person: u64,
    },
    /// Short read 2: the recent messages of a person.
    Is2 {
        person: u64,
    },
    /// Short read 3: the friends of a person.
    Is3 {
        person: u64,
    },
    /// Short read 4: the content of a message.
    Is4 {
        message: u64,
    },
    /// Short read 5: the creator of a message.
    Is5 {
        message: u64,
    },
    /// Short read 6: the forum of a message.
    Is6 {
        message: u64,
    },
    /// Short read 7: the replies of a message.
    Is7 {
        message: u64,
    },
    /// Complex read 1: persons of a first name around a person.
    Ic1 {
        person: u64,
        first_name: Text,
    },
    /// Complex read 2: the messages of friends up to a date.
    Ic2 {
        person: u64,
        max_date: u64,
    },
    /// Complex read 7: who liked the messages of a person.
    Ic7 {
        person: u64,
    },
    /// Complex read 8: the replies to the messages of a person.
    Ic8 {
        person: u64,
    },
    /// Complex read 9: the messages of friends and their friends before a date.
    Ic9 {
        person: u64,
        max_date: u64,
    },
    /// Complex read 11: friends and their friends who began to work in a country before a year.
    Ic11 {
        person: u64,
        country: Text,
        year: u32,
    },
    /// Complex read 13: the length of the shortest path between two persons.
    Ic13 {
        from: u64,
        to: u64,
    },
}

impl Drop for Query {
    fn drop(self) {
        match self {
            Query::Is1 { person: _ } => {}
            Query::Is2 { person: _ } => {}
            Query::Is3 { person: _ } => {}
            Query::Is4 { message: _ } => {}
            Query::Is5 { message: _ } => {}
            Query::Is6 { message: _ } => {}
            Query::Is7 { message: _ } => {}
            Query::Ic1 {
                person: _,
                first_name: _,
            } => {}
            Query::Ic2 {
                person: _,
                max_date: _,
            } => {}
            Query::Ic7 { person: _ } => {}
            Query::Ic8 { person: _ } => {}
            Query::Ic9 {
                person: _,
                max_date: _,
            } => {}
            Query::Ic11 {
                person: _,
                country: _,
                year: _,
            } => {}
            Query::Ic13 { from: _, to: _ } => {}
        }
    }
}

/// Which of the fourteen reads a read is: the short reads are IS1 to IS7, and the complex ones are
/// named IC.
#[derive(Clone, Copy, PartialEq, Eq)]
pub enum ReadKind {
    Is1,
    Is2,
    Is3,
    Is4,
    Is5,
    Is6,
    Is7,
    Ic1,
    Ic2,
    Ic7,
    Ic8,
    Ic9,
    Ic11,
    Ic13,
}

/// How many complex reads there are.
pub const COMPLEX_COUNT: usize = 7;

/// The complex reads, in the order of their numbers.
pub const COMPLEX_READS: [ReadKind; COMPLEX_COUNT] = [Ic1, Ic2, Ic7, Ic8, Ic9, Ic11, Ic13];

/// All reads: the short ones, then the complex ones.
pub const READ_KINDS: [ReadKind; 14] = [
    Is1, Is2, Is3, Is4, Is5, Is6, Is7, Ic1, Ic2, Ic7, Ic8, Ic9, Ic11, Ic13,
];

/// What stands in a column of a read's rows.
#[derive(Clone, Copy)]
pub enum CellKind {
    /// A number, as an id is too.
    Number,
    Flag,
    /// A text.
    Words,
    Texts,
    Stays,
}

/// A column, counted from 1, that has the id of a person, or that of a message.
#[derive(Clone, Copy)]
pub enum TargetColumn {
    PersonAt { at: usize },
    MessageAt { at: usize },
}

/// What is fixed of a kind of read.
#[derive(Clone, Copy)]
pub struct ReadLayout {
    /// The word that names it, as `IS1` and `IC13`.
    pub word: &'static str,
    /// The number of a complex read; a short one has 0.
    pub number: u32,
    /// The columns of its parameters, in the order of its parameter file.
    pub parameters: &'static [Column],
    /// What stands in the columns of its rows.
    pub cells: &'static [CellKind],
    /// The columns from whose ids further reads may go on, by rising column.
    pub targets: &'static [TargetColumn],
    /// Whether the short reads of the targets in the first row of its answer follow it in a reply.
    pub is_followed: bool,
}

const ID: Column = Column::Number { most: MAX_ID };

const ALONE: [Column; 1] = [ID];

const NAMED: [Column; 2] = [ID, Column::Words];

const DATED: [Column; 2] = [ID, Column::Date];

const PLACED: [Column; 3] = [ID, Column::Words, Column::Small { most: MAX_YEAR }];

const PAIRED: [Column; 2] = [ID, ID];

const NOWHERE: [TargetColumn; 0] = [];

const PERSON: [TargetColumn; 1] = [PersonAt { at: 1 }];

const MODERATOR: [TargetColumn; 1] = [PersonAt { at: 3 }];

const SENDER: [TargetColumn; 2] = [PersonAt { at: 1 }, MessageAt { at: 4 }];

const ACTOR: [TargetColumn; 2] = [PersonAt { at: 1 }, MessageAt { at: 5 }];

const ANSWER: [TargetColumn; 2] = [MessageAt { at: 1 }, PersonAt { at: 4 }];

const RECENT: [TargetColumn; 3] = [MessageAt { at: 1 }, MessageAt { at: 4 }, PersonAt { at: 5 }];

const IS1: [CellKind; 8] = [Words, Words, Number, Words, Words, Number, Words, Number];

const IS2: [CellKind; 7] = [Number, Words, Number, Number, Number, Words, Words];

const IS3: [CellKind; 4] = [Number, Words, Words, Number];

const IS4: [CellKind; 2] = [Number, Words];

const IS5: [CellKind; 3] = [Number, Words, Words];

const IS6: [CellKind; 5] = [Number, Words, Number, Words, Words];

const IS7: [CellKind; 7] = [Number, Words, Number, Number, Words, Words, Flag];

const IC1: [CellKind; 13] = [
    Number, Words, Number, Number, Number, Words, Words, Words, Texts, Texts, Words, Stays, Stays,
];

const IC2: [CellKind; 6] = [Number, Words, Words, Number, Words, Number];

const IC7: [CellKind; 8] = [Number, Words, Words, Number, Number, Words, Number, Flag];

const IC8: [CellKind; 6] = [Number, Words, Words, Number, Number, Words];

const IC11: [CellKind; 5] = [Number, Words, Words, Words, Number];

const IC13: [CellKind; 1] = [Number];

// A kind of read: its word and number, its parameters, its cells and its targets, and whether reads
// follow its answer.
fn read(
    word: &'static str,
    number: u32,
    parameters: &'static [Column],
    cells: &'static [CellKind],
    targets: &'static [TargetColumn],
    is_followed: bool,
) -> ReadLayout
    ensures { result ≡ record {
      word = word.entry;
      number = number;
      parameters = parameters.entry;
      cells = cells.entry;
      targets = targets.entry;
      is_followed = is_followed;
    } }
{
    ReadLayout {
        word,
        number,
        parameters,
        cells,
        targets,
        is_followed,
    }
}

/// What is fixed of the kind.
pub fn read_layout_of(kind: ReadKind) -> ReadLayout
    ensures { IsReadLayoutOf kind result }
{
    match kind {
        Is1 => read("IS1", 0, &ALONE, &IS1, &NOWHERE, false),
        Is2 => read("IS2", 0, &ALONE, &IS2, &RECENT, false),
        Is3 => read("IS3", 0, &ALONE, &IS3, &PERSON, false),
        Is4 => read("IS4", 0, &ALONE, &IS4, &NOWHERE, false),
        Is5 => read("IS5", 0, &ALONE, &IS5, &PERSON, false),
        Is6 => read("IS6", 0, &ALONE, &IS6, &MODERATOR, false),
        Is7 => read("IS7", 0, &ALONE, &IS7, &ANSWER, false),
        Ic1 => read("IC1", 1, &NAMED, &IC1, &PERSON, true),
        Ic2 => read("IC2", 2, &DATED, &IC2, &SENDER, true),
        Ic7 => read("IC7", 7, &ALONE, &IC7, &ACTOR, true),
        Ic8 => read("IC8", 8, &ALONE, &IC8, &ACTOR, true),
        Ic9 => read("IC9", 9, &DATED, &IC2, &SENDER, true),
        Ic11 => read("IC11", 11, &PLACED, &IC11, &PERSON, true),
        Ic13 => read("IC13", 13, &PAIRED, &IC13, &NOWHERE, false),
    }
}

/// What is fixed of the kind of a read.
pub fn layout_of_query(query: &Query) -> ReadLayout
    ensures { IsReadLayoutOf (read_kind_of query.now) result }
{
    read_layout_of(query.kind())
}

// The first of the kinds that the word names.
fn named(kinds: &[ReadKind], word: &str) -> Option<ReadKind>
    ensures { MatchOption result (AllByRecursion (λ kind. ¬ (word.now ≡ read_word kind)) kinds.now)
        (λ kind. word.now ≡ read_word kind) }
{
    match kinds {
        [] => None,
        [kind, kinds @ ..] => {
            if kind.word() == word {
                Some(*kind)
            } else {
                named(kinds, word)
            }
        }
    }
}

// The first of the kinds that has this number.
fn numbered(kinds: &[ReadKind], number: u32) -> Option<ReadKind>
    ensures { result ≡ numbered kinds.now number }
{
    match kinds {
        [] => None,
        [kind, kinds @ ..] => {
            if kind.number() == number {
                Some(*kind)
            } else {
                numbered(kinds, number)
            }
        }
    }
}

impl ReadKind {
    /// The kind that the word names, as in `IS1` and `IC13`; None exactly where it names none.
    pub fn of_word(word: &str) -> Option<ReadKind>
        ensures { MatchOption result ((kind : AnyKind) → ¬ (word.now ≡ read_word kind))
            (λ kind. word.now ≡ read_word kind) }
    {
        named(&READ_KINDS, word)
    }

    /// The kind of the complex read of this number; None exactly where no complex read has it.
    pub fn of_number(number: u32) -> Option<ReadKind>
        ensures { result ≡ complex_kind number }
    {
        numbered(&COMPLEX_READS, number)
    }

    /// The word that names it.
    pub fn word(self) -> &'static str
        ensures { result.now ≡ read_word self }
    {
        read_layout_of(self).word
    }

    /// The number of a complex read, and 0 for a short one.
    pub fn number(self) -> u32
        ensures { result ≡ number_of_kind self }
    {
        read_layout_of(self).number
    }

    /// The columns of its parameters.
    pub fn columns(self) -> &'static [Column]
        ensures { result.now ≡ parameter_columns self }
    {
        read_layout_of(self).parameters
    }
}

impl Query {
    /// Its kind.
    pub fn kind(&self) -> ReadKind
        ensures { result ≡ read_kind_of self.now }
    {
        match self {
            Query::Is1 { .. } => Is1,
            Query::Is2 { .. } => Is2,
            Query::Is3 { .. } => Is3,
            Query::Is4 { .. } => Is4,
            Query::Is5 { .. } => Is5,
            Query::Is6 { .. } => Is6,
            Query::Is7 { .. } => Is7,
            Query::Ic1 { .. } => Ic1,
            Query::Ic2 { .. } => Ic2,
            Query::Ic7 { .. } => Ic7,
            Query::Ic8 { .. } => Ic8,
            Query::Ic9 { .. } => Ic9,
            Query::Ic11 { .. } => Ic11,
            Query::Ic13 { .. } => Ic13,
        }
    }
}

/// The numbers of the complex queries, in order.
pub const COMPLEX_QUERIES: [u32; 7] = [1, 2, 7, 8, 9, 11, 13];

/// Whether this is the number of one of the seven complex queries.
pub fn is_complex(query: u32) -> bool
    ensures { IsTrue result ↔ IsComplex query }
{
    ReadKind::of_number(query).is_some()
}

/// The place of a complex query among the seven, in the order of their numbers: 0 to 6. Any other
/// number has place 7, past the last.
pub fn place_of(query: u32) -> usize
    ensures { result ≡ place_of query }
{
    index_in(&COMPLEX_READS, query)
}

// The place of the first of the kinds that has this number; their count where none has it.
fn index_in(kinds: &[ReadKind], query: u32) -> usize
    ensures place { result ≡ index_in (map number_of_kind kinds.now) query }
    ensures bounded { result ≤ length kinds.now }
{
    match kinds {
        [] => 0,
        [kind, kinds @ ..] => {
            if query == kind.number() {
                0
            } else {
                1 + index_in(kinds, query)
            }
        }
    }
}
