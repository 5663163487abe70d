//! Whether two replies are one, down to the cells. The first one's texts are lent, the other's its own.

ghost use Rattle.std.specs.Prelude.{◌≡◌, ◌↔◌, IsTrue};
ghost use Rattle.std.specs.List.{AllZip};

use snb_base::{OwnedList, Text};
use snb_read_model::{Cell, CowText, Reply};

/// What can be compared with a `U`.
trait Same<U> {
    /// Which values are the same.
    ghost is: { Self → U → Type 0 };

    /// Whether the two are the same. Takes no memory.
    fn same(&self, other: &U) -> bool
        ensures { IsTrue result ↔ is self.now other.now };
}

impl<'a> Same<Text> for CowText<'a> {
    ghost is = { λ a b. a ≡ b };

    fn same(&self, other: &Text) -> bool {
        CowText::same(self, other)
    }
}

impl<'a> Same<(Text, u32, Text)> for (CowText<'a>, u32, CowText<'a>) {
    ghost is = { λ a b. a ≡ b };

    fn same(&self, other: &(Text, u32, Text)) -> bool {
        self.1 == other.1 && self.0.same(&other.0) && self.2.same(&other.2)
    }
}

/// Lists are the same where they have as many items, and those in one place are the same.
impl<T: Same<U> + Drop, U: Drop> Same<OwnedList<U>> for OwnedList<T> {
    ghost is = { AllZip T.is };

    fn same(&self, other: &OwnedList<U>) -> bool {
        same_items(self.as_slice(), other.as_slice())
    }
}

// Whether two lists have as many items, and those in one place are the same.
fn same_items<T: Same<U>, U>(a: &[T], b: &[U]) -> bool
    ensures { IsTrue result ↔ AllZip T.is a.now b.now }
{
    if a.len() != b.len() {
        return false;
    }
    for at in 0..a.len() {
        if !a[at].same(&b[at]) {
            return false;
        }
    }
    true
}

impl<'a> Same<Cell<Text>> for Cell<CowText<'a>> {
    ghost is = { λ a b. a ≡ b };

    fn same(&self, other: &Cell<Text>) -> bool {
        match self {
            Cell::Number { value } => match other {
                Cell::Number { value: other } => *value == *other,
                _ => false,
            },
            Cell::Flag { value } => match other {
                Cell::Flag { value: other } => *value == *other,
                _ => false,
            },
            Cell::Words { text } => match other {
                Cell::Words { text: other } => text.same(other),
                _ => false,
            },
            Cell::List { texts } => match other {
                Cell::List { texts: other } => texts.same(other),
                _ => false,
            },
            Cell::Stays { stays } => match other {
                Cell::Stays { stays: other } => stays.same(other),
                _ => false,
            },
        }
    }
}

/// Whether two replies are one: the same answers in the same order, each with the same rows in the same
/// order, each with the same cells. Takes no memory.
pub fn same_reply(a: &Reply<CowText<'_>>, b: &Reply<Text>) -> bool
    ensures { IsTrue result ↔ (a.now ≡ b.now) }
{
    a.same(b)
}
