//! Where the bytes of files come from.

ghost use Rattle.std.specs.Prelude.{◌≡◌, ℕ, ◌<◌, length, IfSome, Option, true};
ghost use Rattle.snb_base.specs.Shelf.{Files, FitsBuffer, HasRead, IsReading, Names, is_failed};

/// What a call of [`Shelf::read`] answers.
#[derive(Clone, Copy, Debug, PartialEq, Eq)]
pub enum Got {
    /// So many bytes stand at the front of the buffer. 0 says that the file ends at or before the place asked for.
    Took {
        /// How many bytes.
        count: usize,
    },
    /// The name isn't held.
    Absent,
    /// The outside failed; the count of faults rose.
    Failed,
}

/// A store of files that are read in pieces, each under a name.
///
/// Its meanings are the contents, where it tells them, a count of faults that never falls, and the names that
/// it may be asked for. A shelf over real files tells no contents, and may be asked for each name.
pub trait Shelf {
    /// What is held, where it is told.
    ghost contents: { Self → Option Files };

    /// How many faults there have been.
    ghost faults: { Self → ℕ };

    /// The names that it may be asked for.
    ghost may: { Self → Names };

    /// Reads bytes of the file `name` from the byte `at` on into the front of `into`, as many as the
    /// shelf likes. The buffer has room for one byte at least (`room`), and the name is one that may be asked
    /// for (`allowed`). The contents stay as they are, and so do the names that may be asked for, and the count
    /// of faults too where the answer isn't `Failed`.
    fn read(&mut self, name: &str, at: u64, into: &mut [u8]) -> Got
        requires room { 0 < length into.old }
        requires allowed { may self.old name.now ≡ true }
        ensures room { FitsBuffer (length into.old) result }
        ensures told { IfSome (contents self.old) (λ files. IsReading files name.now at into.new result) }
        ensures read { HasRead (is_failed result) (contents self.old) (may self.old) (faults self.old)
            (contents self.new) (may self.new) (faults self.new) };
}
