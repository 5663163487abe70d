//! The words and numbers of a line.

use crate::flaw::Flaw;
use snb_base::read_number;

/// The first word of the text, and what stands after the space behind it.
pub fn first_word(text: &str) -> (&str, &str) {
    match text.split_once(' ') {
        Some((word, rest)) => (word, rest),
        None => (text, ""),
    }
}

/// The number that the text is.
pub fn number_of(text: &str) -> Result<u64, Flaw> {
    read_number(text.as_bytes(), u64::MAX).ok_or(Flaw::NoNumber)
}

/// The number that the text is, of 32 bits.
pub fn small_number_of(text: &str) -> Result<u32, Flaw> {
    match u32::try_from(number_of(text)?) {
        Ok(number) => Ok(number),
        Err(_) => Err(Flaw::NoNumber),
    }
}

/// The two numbers that the text is, with a space between them.
pub fn two_numbers(text: &str) -> Result<(u64, u64), Flaw> {
    let (one, other) = first_word(text);
    Ok((number_of(one)?, number_of(other)?))
}

/// Refuses a text that isn't empty.
pub fn nothing(rest: &str) -> Result<(), Flaw> {
    if rest.is_empty() {
        return Ok(());
    }
    Err(Flaw::Surplus)
}
