//! A shelf in memory that never fails.

ghost use Rattle.std.specs.Prelude.{◌≡◌, ◌≢◌, ◌<◌, length, Some};
ghost use Rattle.snb_base.specs.MemoryShelf.{file_of, IsFullReading};
ghost use Rattle.snb_base.specs.Shelf.{FitsBuffer, HasRead, IsReading, any_name, is_failed};

use crate::memory_shelf::MemoryShelf;
use crate::shelf::{Got, Shelf};
use std::marker::Model;

/// A shelf over the files of a [`MemoryShelf`], which no call changes and which never fails.
///
/// A contract sees its files.
pub struct SteadyShelf {
    shelf: MemoryShelf,
}

impl Drop for SteadyShelf {
    fn drop(self) {
        let SteadyShelf { shelf: _ } = self;
    }
}

impl Model for SteadyShelf {
    ghost use Rattle.std.specs.Prelude.{ℕ, List};

    ghost Value = { List (List ℕ × List ℕ) };

    ghost view = { λ s. s.shelf.files };
}

impl SteadyShelf {
    /// A shelf with the same files. The list of failing calls counts no more. Takes no memory.
    pub fn new(shelf: MemoryShelf) -> SteadyShelf
        ensures { result ≡ shelf.files }
    {
        SteadyShelf { shelf }
    }
}

impl Shelf for SteadyShelf {
    ghost contents = { λ files. Some (file_of files) };

    ghost faults = { λ _. 0 };

    ghost may = { λ _. any_name };

    /// Reads as many bytes as there are and as the buffer takes.
    fn read(&mut self, name: &str, at: u64, into: &mut [u8]) -> Got
        requires { 0 < length into.old }
        ensures room { FitsBuffer (length into.old) result }
        ensures told { IsReading (file_of self.old) name.now at into.new result }
        ensures read { HasRead (is_failed result) (Some (file_of self.old)) any_name 0 (Some (file_of self.new))
            any_name 0 }
        ensures steady { result ≢ Got.Failed }
        ensures full { IsFullReading (file_of self.old) name.now at (length into.old) result }
        ensures after { self.new ≡ self.old }
    {
        self.shelf.read_held(name, at, into)
    }
}
