//! The words that the program is started with.

ghost use Rattle.std.specs.Prelude.{ℕ, List, IfOk, Option};
ghost use Rattle.snb_edge.specs.Edge.{AreTold};

use snb_base::Texts;
use std::alloc::{AllocError, Global};

/// The words of a command line, those that follow the program's name.
///
/// Its meaning is the words, where it tells them.
pub trait Words {
    /// The words, where they are told.
    ghost told: { Self → Option (List (List ℕ)) };

    /// The words, in order, as texts of one's own. Where one of them isn't UTF-8 there are none: the program accepts
    /// no such word, nor a line without words. The error says that memory doesn't suffice.
    fn read(&self, alloc: Global) -> Result<Texts, AllocError>
        ensures { IfOk result (AreTold (told self.now)) };
}
