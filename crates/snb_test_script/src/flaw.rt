//! What can be wrong with a script.

use std::alloc::{AllocError, AllocFailed};

/// Why a line of the script isn't carried out.
#[derive(Clone, Copy)]
pub enum Flaw {
    /// The line begins with no word of a script's.
    NoWord,
    /// A number is wanted.
    NoNumber,
    /// A name is wanted.
    NoName,
    /// The text spells no ratio.
    NoRatio,
    /// The text spells no frequencies.
    NoFrequencies,
    /// The call is none for these values.
    OtherValue,
    /// Something follows what should stand alone, or stand last.
    Surplus,
    /// The line doesn't say what must come.
    NothingWanted,
    /// A line of an answer follows no call.
    NoCall,
    /// The line belongs to a case, and none is begun.
    NoCase,
    /// Two cases have one name.
    CaseTwice,
    /// No file and no case of this name stands above.
    NoFile,
    /// A file has no such line, or not so many bytes.
    TooShort,
    /// Something came that the case doesn't ask for.
    Untold,
    /// A line is added where no file is begun.
    NoPlace,
    /// Two files have one name.
    FileTwice,
    /// A backslash is followed by what no escape has.
    BadEscape,
    /// The graph isn't sound.
    Unsound,
    /// A file couldn't be read.
    ReadFault,
    /// Memory ran out.
    Memory,
}

/// What is wrong with a file of cases.
#[derive(Clone, Copy)]
pub struct Stop {
    /// The line that isn't carried out, counted from 1; None where the file can't be read.
    pub line: Option<usize>,
    /// What is wrong with it.
    pub flaw: Flaw,
}

impl Flaw {
    /// What is printed of it.
    pub fn text(self) -> &'static str {
        match self {
            Flaw::NoWord => "no word of a script begins this line",
            Flaw::NoNumber => "a number is wanted",
            Flaw::NoName => "a name is wanted",
            Flaw::NoRatio => "this is no ratio",
            Flaw::NoFrequencies => "these are no frequencies",
            Flaw::OtherValue => "this is no call for these values",
            Flaw::Surplus => "something follows that doesn't belong here",
            Flaw::NothingWanted => "it isn't said what must come",
            Flaw::NoCall => "no call stands above that could answer this",
            Flaw::NoCase => "no case is begun",
            Flaw::CaseTwice => "a case of this name stands above",
            Flaw::NoFile => "nothing of this name stands above",
            Flaw::TooShort => "the file isn't so long",
            Flaw::Untold => "something came that the case doesn't ask for",
            Flaw::NoPlace => "no file is begun to which this line could belong",
            Flaw::FileTwice => "a file is there twice",
            Flaw::BadEscape => "no escape is spelled like this",
            Flaw::Unsound => "the graph isn't sound",
            Flaw::ReadFault => "a file couldn't be read",
            Flaw::Memory => "out of memory",
        }
    }
}

impl From<AllocError> for Flaw {
    fn from(_error: AllocError) -> Flaw {
        Flaw::Memory
    }
}

impl<T: Drop> From<AllocFailed<T>> for Flaw {
    fn from(_error: AllocFailed<T>) -> Flaw {
        Flaw::Memory
    }
}
