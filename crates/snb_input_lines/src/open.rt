//! What a reader of lines is made of.

ghost use Rattle.std.specs.Prelude.{◌≡◌};
ghost use Rattle.snb_schema.specs.declared.file.FileId.{FileId as File};

use snb_schema::FileId;
use std::alloc::Global;

/// A grammar that is known by which file it is of.
pub trait Open {
    /// What says which file it is.
    type Named: Copy;

    /// There is such a file, and it has a grammar.
    ghost can_open: { Self.Named → Type 0 };

    /// The file.
    ghost file_of: { Self.Named → File };

    /// Its grammar.
    ghost grammar_of: { Self.Named → Self };

    /// The file of this name.
    fn file(named: Self::Named) -> FileId
        requires { can_open named }
        ensures { result ≡ file_of named };

    /// The grammar of the file. Takes no memory.
    fn open(alloc: Global, named: Self::Named) -> Self
        requires { can_open named }
        ensures { result ≡ grammar_of named };
}
