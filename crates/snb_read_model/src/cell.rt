//! The cells of an answer.

ghost use Rattle.std.specs.Prelude.{◌≡◌, ◌<◌, ◌^◌, pos, IfOk};
ghost use Rattle.snb_read_model.specs.declared.cell.Cell.TheVariants.{Number};

use crate::cow_text::CowText;
use snb_base::{OwnedList, Text, TryCopy};
use std::alloc::AllocError;

/// Texts, as a cell of an answer.
pub type CellTexts<T> = OwnedList<T>;

/// Where a person studied or worked, as a cell of an answer: each the name of an organisation, a year, and the
/// name of the place where the organisation is.
pub type Stays<T> = OwnedList<(T, u32, T)>;

/// One value of an answer's row, with texts that are lent (`CowText`) or one's own (`Text`). A contract sees
/// the same either way.
pub enum Cell<T> {
    /// A number, or a moment in milliseconds since 1970-01-01 UTC.
    Number { value: i64 },
    /// Yes or no.
    Flag { value: bool },
    /// A text.
    Words { text: T },
    /// Texts, in byte order.
    List { texts: CellTexts<T> },
    /// Where a person studied or worked, in order.
    Stays { stays: Stays<T> },
}

impl<T: Drop> Drop for Cell<T> {
    fn drop(self) {
        match self {
            Cell::Number { value: _ } => {}
            Cell::Flag { value: _ } => {}
            Cell::Words { text: _ } => {}
            Cell::List { texts: _ } => {}
            Cell::Stays { stays: _ } => {}
        }
    }
}

impl<T> Cell<T> {
    /// The cell of a number that isn't below zero. Takes no memory.
    /// The condition: the number is below 2^63.
    pub fn number(value: u64) -> Cell<T>
        requires { value < 2 ^ 63 }
        ensures { result ≡ Number (pos value) }
    {
        Cell::Number {
            value: value as i64,
        }
    }
}

// A cell of the same kind, of equal texts.
impl<T: TryCopy> TryCopy for Cell<T> {
    fn try_copy(&self) -> Result<Cell<T>, AllocError> {
        match self {
            Cell::Number { value } => Ok(Cell::Number { value: *value }),
            Cell::Flag { value } => Ok(Cell::Flag { value: *value }),
            Cell::Words { text } => Ok(Cell::Words {
                text: text.try_copy()?,
            }),
            Cell::List { texts } => Ok(Cell::List {
                texts: texts.try_copy()?,
            }),
            Cell::Stays { stays } => Ok(Cell::Stays {
                stays: stays.try_copy()?,
            }),
        }
    }
}

// An equal stay, with texts of its own.
fn copy_stay(stay: &(CowText<'_>, u32, CowText<'_>)) -> Result<(Text, u32, Text), AllocError>
    ensures { IfOk result (λ copy. copy ≡ stay.now) }
{
    Ok((stay.0.to_text()?, stay.1, stay.2.to_text()?))
}

impl<'a> Cell<CowText<'a>> {
    /// An equal cell, with texts of its own.
    pub fn to_texts(&self) -> Result<Cell<Text>, AllocError>
        ensures { IfOk result (λ c. c ≡ self.now) }
    {
        match self {
            Cell::Number { value } => Ok(Cell::Number { value: *value }),
            Cell::Flag { value } => Ok(Cell::Flag { value: *value }),
            Cell::Words { text } => Ok(Cell::Words {
                text: text.to_text()?,
            }),
            Cell::List { texts } => Ok(Cell::List {
                texts: texts.try_map(|text| text.to_text())?,
            }),
            Cell::Stays { stays } => Ok(Cell::Stays {
                stays: stays.try_map(|stay| copy_stay(stay))?,
            }),
        }
    }
}

impl Cell<Text> {
    /// An equal cell, whose texts are lent.
    pub fn lend(&self) -> Result<Cell<CowText<'_>>, AllocError>
        ensures { IfOk result (λ c. c ≡ self.now) }
    {
        let lent = match self {
            Cell::Number { value } => Cell::Number { value: *value },
            Cell::Flag { value } => Cell::Flag { value: *value },
            Cell::Words { text } => Cell::Words {
                text: CowText::lent(text),
            },
            Cell::List { texts } => Cell::List {
                texts: texts.try_map(|text| Ok(CowText::lent(text)))?,
            },
            Cell::Stays { stays } => Cell::Stays {
                stays: stays.try_map(|stay| Ok((
                    CowText::lent(&stay.0),
                    stay.1,
                    CowText::lent(&stay.2),
                )))?,
            },
        };
        Ok(lent)
    }

    /// The cell with the same texts, none of them copied.
    pub fn into_cow<'a>(self) -> Result<Cell<CowText<'a>>, AllocError>
        ensures { IfOk result (λ cow. cow ≡ self) }
    {
        let cow = match self {
            Cell::Number { value } => Cell::Number { value },
            Cell::Flag { value } => Cell::Flag { value },
            Cell::Words { text } => Cell::Words {
                text: CowText::own(text),
            },
            Cell::List { texts } => Cell::List {
                texts: texts.into_map(|text| Ok(CowText::own(text)))?,
            },
            Cell::Stays { stays } => Cell::Stays {
                stays: stays.into_map(|(name, year, place)| Ok((
                    CowText::own(name),
                    year,
                    CowText::own(place),
                )))?,
            },
        };
        Ok(cow)
    }
}
