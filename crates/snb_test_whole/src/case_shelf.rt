//! The shelf of a case.

ghost use Rattle.std.specs.Prelude.{◌≤◌, None, length};
ghost use Rattle.snb_base.specs.Shelf.{any_name};
ghost use Rattle.snb_test_whole.specs.Kept.{faults_of};

use snb_base::{Got, MemoryShelf, Shelf, SteadyShelf};

/// Which shelf holds the files.
pub enum Kept {
    /// One that fails at the listed calls.
    Memory { shelf: MemoryShelf },
    /// One that never fails.
    Steady { shelf: SteadyShelf },
}

impl Drop for Kept {
    fn drop(self) {
        match self {
            Kept::Memory { shelf: _ } => {}
            Kept::Steady { shelf: _ } => {}
        }
    }
}

/// What follows the bytes of a file that is longer than what is kept of it: a line, again and again.
pub struct Long {
    /// The file.
    pub(crate) name: String,
    /// How many bytes of it are kept.
    pub(crate) kept: u64,
    /// How many bytes it has.
    pub(crate) ends: u64,
    /// The line, with its end.
    pub(crate) line: Vec<u8>,
}

impl Drop for Long {
    fn drop(self) {
        let Long {
            name: _,
            kept: _,
            ends: _,
            line: _,
        } = self;
    }
}

impl Long {
    // Fills the buffer with the bytes from there on, which aren't kept, and tells how many of them the file has.
    fn make(&self, at: u64, into: &mut [u8]) -> usize
        ensures { result ≤ length into.old }
    {
        let left = self.ends.saturating_sub(at).min(into.len() as u64) as usize;
        let width = self.line.len();
        if width == 0 {
            return 0;
        }
        let mut place = (at.saturating_sub(self.kept) % width as u64) as usize;
        for byte in into.iter_mut() {
            if place >= width {
                place = 0;
            }
            *byte = self.line[place];
            place += 1;
        }
        left
    }
}

/// A shelf that counts how often it is read, and tells no contents. One that is fading has each file at its
/// first read alone. One that has a long file makes what follows the bytes that are kept of it.
pub struct CaseShelf {
    kept: Kept,
    fading: bool,
    long: Option<Long>,
    reads: u64,
}

impl Drop for CaseShelf {
    fn drop(self) {
        let CaseShelf {
            kept: _,
            fading: _,
            long: _,
            reads: _,
        } = self;
    }
}

impl CaseShelf {
    /// A shelf with the files of this one, which wasn't read yet.
    pub fn new(shelf: MemoryShelf, steady: bool, fading: bool, long: Option<Long>) -> CaseShelf {
        let kept = if steady {
            Kept::Steady {
                shelf: SteadyShelf::new(shelf),
            }
        } else {
            Kept::Memory { shelf }
        };
        CaseShelf {
            kept,
            fading,
            long,
            reads: 0,
        }
    }

    /// How often it was read.
    pub fn reads(&self) -> u64 {
        self.reads
    }
}

impl Shelf for CaseShelf {
    ghost contents = { λ _. None };

    ghost faults = { λ s. faults_of s.kept };

    ghost may = { λ _. any_name };

    fn read(&mut self, name: &str, at: u64, into: &mut [u8]) -> Got {
        self.reads = self.reads.saturating_add(1);
        if self.fading && at > 0 {
            return Got::Absent;
        }
        if let Some(long) = &self.long {
            if long.name.as_str() == name && at >= long.kept {
                return Got::Took {
                    count: long.make(at, into),
                };
            }
        }
        match &mut self.kept {
            Kept::Memory { shelf } => shelf.read(name, at, into),
            Kept::Steady { shelf } => shelf.read(name, at, into),
        }
    }
}
