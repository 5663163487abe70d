//! What the columns of tables and streams hold.

use snb_base::{Numbers, Pairs, Text, Texts};

/// What a column holds, and so how its fields are spelled.
#[derive(Clone, Copy)]
pub enum Column {
    /// A number of at most `most`.
    Number { most: u64 },
    /// A number of at most `most`, as a year or a length is.
    Small { most: u32 },
    /// An id, or `-1` where there is none.
    OptionalId,
    /// A date and time.
    Date,
    /// A day.
    Day,
    /// Any text, which may be empty.
    Words,
    /// A text that isn't empty.
    Word,
    /// A list of texts.
    TextList,
    /// A list of ids.
    IdList,
    /// A list of ids with years.
    PairList,
}

/// What a field of a column stands for.
#[derive(Drop)]
pub enum Value {
    /// A number, or a date or a day in milliseconds since 1970-01-01 UTC.
    Digits { n: u64 },
    /// A year or a length.
    SmallDigits { n: u32 },
    /// No id.
    NoId,
    /// A text.
    Letters { text: Text },
    /// Texts in order.
    Texts { texts: Texts },
    /// Ids in order.
    Ids { ids: Numbers },
    /// Ids with years in order.
    Pairs { pairs: Pairs },
}
