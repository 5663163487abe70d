//! Texts of answers, lent or one's own.

ghost use Rattle.std.specs.Prelude.{◌≡◌, ◌↔◌, IfOk, IsTrue};
ghost use Rattle.std.specs.Cmp.Lexicographic.{slice_cmp};
ghost use Rattle.std.specs.Ordering.{nat_cmp};

use snb_base::{Text, TryCopy};
use std::alloc::AllocError;
use std::cmp::Ordering;
use std::marker::Model;

// Whose text it is.
enum Source<'a> {
    Lent { text: &'a Text },
    Own { text: Text },
}

impl<'a> Drop for Source<'a> {
    fn drop(self) {
        match self {
            Source::Lent { text: _ } => {}
            Source::Own { text: _ } => {}
        }
    }
}

/// A text that a graph lends, or one's own. A contract sees its UTF-8 bytes.
pub struct CowText<'a> {
    source: Source<'a>,
}

// Written out, so that letting one go is one call wherever it happens.
impl<'a> Drop for CowText<'a> {
    fn drop(self) {
        let CowText { source: _ } = self;
    }
}

impl<'a> Model for CowText<'a> {
    ghost use Rattle.std.specs.Prelude.{ℕ, List};
    ghost use Rattle.snb_read_model.specs.CowTexts.{bytes_of};

    ghost Value = { List ℕ };

    ghost view = { λ w. bytes_of w.source };
}

impl<'a> CowText<'a> {
    /// The text, lent. Takes no memory.
    pub fn lent(text: &'a Text) -> CowText<'a>
        ensures { result ≡ text.now }
    {
        CowText {
            source: Source::Lent { text },
        }
    }

    /// The text, as one's own. Takes no memory.
    pub fn own(text: Text) -> CowText<'a>
        ensures { result ≡ text }
    {
        CowText {
            source: Source::Own { text },
        }
    }

    // The text.
    fn text(&self) -> &Text
        ensures { result.now ≡ self.now }
    {
        match &self.source {
            Source::Lent { text } => text,
            Source::Own { text } => text,
        }
    }

    /// The text. Takes no memory.
    pub fn as_str(&self) -> &str
        ensures { result.now ≡ self.now }
    {
        self.text().as_str()
    }

    /// Whether it is this text. Takes no memory.
    pub fn same(&self, other: &Text) -> bool
        ensures { IsTrue result ↔ (self.now ≡ other.now) }
    {
        *self.text() == *other
    }

    /// How two texts stand to one another by their bytes. Takes no memory.
    pub fn compare(&self, other: &CowText<'_>) -> Ordering
        ensures { result ≡ slice_cmp nat_cmp self.now other.now }
    {
        self.text().cmp(other.text())
    }

    /// An equal text, as one's own.
    pub fn to_text(&self) -> Result<Text, AllocError>
        ensures { IfOk result (λ w. w ≡ self.now) }
    {
        self.text().try_copy()
    }
}

// The copy has its text.
impl<'a> TryCopy for CowText<'a> {
    fn try_copy(&self) -> Result<CowText<'a>, AllocError> {
        Ok(CowText::own(self.to_text()?))
    }
}
