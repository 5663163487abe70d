//! Changes of the bytes of a file.

ghost use Rattle.std.specs.Prelude.{◌≤◌, length, IfSome};

use crate::escape::{LineEnd, put_plain};
use crate::flaw::Flaw;
use crate::words::{first_word, number_of};
use snb_base::put_number;
use std::alloc::AllocError;

// Where the line of this number begins. The line after the last begins at the end.
fn begin_of(bytes: &[u8], line: u64) -> Option<usize>
    ensures { IfSome result (λ at. at ≤ length bytes.now) }
{
    let mut number: u64 = 1;
    if line == number {
        return Some(0);
    }
    for (i, byte) in bytes.iter().enumerate() {
        if *byte == b'\n' {
            number = number.saturating_add(1);
            if number == line {
                return Some(i + 1);
            }
        }
    }
    None
}

/// Appends the bytes of a line, and its end where it has one.
pub(crate) fn add_line(text: &str, to: &mut Vec<u8>) -> Result<(), Flaw> {
    match put_plain(text, to)? {
        LineEnd::There => Ok(to.push(b'\n')?),
        LineEnd::LeftOut => Ok(()),
    }
}

// Appends a line with the number in the place of each `*`.
fn add_numbered(number: u64, line: &str, to: &mut Vec<u8>) -> Result<(), Flaw> {
    let mut end = LineEnd::There;
    for (i, piece) in line.split('*').enumerate() {
        if i > 0 {
            put_number(number, to)?;
        }
        end = put_plain(piece, to)?;
    }
    match end {
        LineEnd::There => Ok(to.push(b'\n')?),
        LineEnd::LeftOut => Ok(()),
    }
}

/// `M N TEXT`: appends a line for each number from M to N.
pub(crate) fn add_many(text: &str, to: &mut Vec<u8>) -> Result<(), Flaw> {
    let (first, rest) = first_word(text);
    let (last, line) = first_word(rest);
    let first = number_of(first)?;
    let last = number_of(last)?;
    for number in first..=last {
        add_numbered(number, line, to)?;
    }
    Ok(())
}

// Cuts off what stands from there on.
fn cut_off(at: usize, to: &mut Vec<u8>) -> Result<Vec<u8>, AllocError>
    requires { at ≤ length to.old.items }
{
    let rest = Vec::from_slice(*to.allocator(), &to.as_slice()[at..])?;
    to.truncate(at);
    Ok(rest)
}

/// `N TEXT`: puts a line before line N.
pub(crate) fn put_line(text: &str, to: &mut Vec<u8>) -> Result<(), Flaw> {
    let (line, text) = first_word(text);
    let at = begin_of(to.as_slice(), number_of(line)?).ok_or(Flaw::TooShort)?;
    let rest = cut_off(at, to)?;
    add_line(text, to)?;
    to.extend_from_slice(rest.as_slice())?;
    Ok(())
}

/// `N`: leaves out line N.
pub(crate) fn leave_line(text: &str, to: &mut Vec<u8>) -> Result<(), Flaw> {
    let at = begin_of(to.as_slice(), number_of(text)?).ok_or(Flaw::TooShort)?;
    let rest = cut_off(at, to)?;
    if rest.is_empty() {
        return Err(Flaw::TooShort);
    }
    let next = begin_of(rest.as_slice(), 2).unwrap_or(rest.len());
    to.extend_from_slice(&rest.as_slice()[next..])?;
    Ok(())
}

/// `N`: keeps N bytes.
pub(crate) fn cut_at(text: &str, to: &mut Vec<u8>) -> Result<(), Flaw> {
    let count = number_of(text)? as usize;
    if count > to.len() {
        return Err(Flaw::TooShort);
    }
    to.truncate(count);
    Ok(())
}
