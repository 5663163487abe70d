//! Bytes as they are written in a script, and as they are shown.

use crate::flaw::Flaw;
use std::alloc::{AllocError, Global};

// What has been read of an escape.
#[derive(Clone, Copy)]
enum Escape {
    // Nothing: the next character stands for itself.
    Not,
    // The backslash.
    Begun,
    // The backslash and the `x`.
    Byte,
    // The backslash, the `x` and the first digit, of this value.
    Half { high: u8 },
}

/// What follows a line of a file.
#[derive(Clone, Copy)]
pub enum LineEnd {
    /// A line end.
    There,
    /// Nothing: the line has a backslash at its end.
    LeftOut,
}

// The value of a digit to the base 16, in small letters.
fn digit_value(digit: u8) -> Option<u8> {
    match digit {
        b'0'..=b'9' => Some(digit - b'0'),
        b'a'..=b'f' => Some(digit - b'a' + 10),
        _ => None,
    }
}

// Takes the byte after a backslash, and appends what is complete with it.
fn take_begun(byte: u8, to: &mut Vec<u8>) -> Result<Escape, Flaw> {
    match byte {
        b'x' => return Ok(Escape::Byte),
        b'e' => {}
        b'r' => to.push(b'\r')?,
        b'\\' => to.push(b'\\')?,
        _ => return Err(Flaw::BadEscape),
    }
    Ok(Escape::Not)
}

// Takes the next byte of a line, and appends what is complete with it.
fn take_byte(escape: Escape, byte: u8, to: &mut Vec<u8>) -> Result<Escape, Flaw> {
    match escape {
        Escape::Not => {
            if byte == b'\\' {
                return Ok(Escape::Begun);
            }
            to.push(byte)?;
            Ok(Escape::Not)
        }
        Escape::Begun => take_begun(byte, to),
        Escape::Byte => {
            let high = digit_value(byte).ok_or(Flaw::BadEscape)?;
            Ok(Escape::Half { high })
        }
        Escape::Half { high } => {
            let low = digit_value(byte).ok_or(Flaw::BadEscape)?;
            to.push((high % 16) * 16 + low % 16)?;
            Ok(Escape::Not)
        }
    }
}

/// Appends the bytes that the text stands for, and says whether a line end follows. In the text `\\` is
/// a backslash, `\r` a carriage return, `\xHH` the byte of these two digits to the base 16, and `\e`
/// nothing. A backslash at its end says that no line end follows.
pub fn put_plain(text: &str, to: &mut Vec<u8>) -> Result<LineEnd, Flaw> {
    let mut escape = Escape::Not;
    for byte in text.as_bytes() {
        escape = take_byte(escape, *byte, to)?;
    }
    match escape {
        Escape::Not => Ok(LineEnd::There),
        Escape::Begun => Ok(LineEnd::LeftOut),
        Escape::Byte => Err(Flaw::BadEscape),
        Escape::Half { .. } => Err(Flaw::BadEscape),
    }
}

// Appends how the byte is shown.
fn show_byte(byte: u8, to: &mut String) -> Result<(), AllocError> {
    match byte {
        b'\n' => to.push_str("\\n"),
        b'\r' => to.push_str("\\r"),
        b'\\' => to.push_str("\\\\"),
        b' '..=b'~' => to.push(char::from(byte)),
        _ => write!(to, "\\x{byte:02x}"),
    }
}

/// How the bytes are shown: as in a script, with `\n` for a line end.
pub fn shown(alloc: Global, bytes: &[u8]) -> Result<String, AllocError> {
    let mut text = String::new(alloc);
    for byte in bytes {
        show_byte(*byte, &mut text)?;
    }
    Ok(text)
}

/// How the bytes are told as an answer: their lines, each as a line of a file is written, so that a backslash
/// at the end says that no line end follows.
pub fn shown_lines(alloc: Global, bytes: &[u8]) -> Result<String, AllocError> {
    let mut text = String::new(alloc);
    let mut ended = false;
    for byte in bytes {
        if ended {
            text.push('\n')?;
        }
        ended = *byte == b'\n';
        if !ended {
            show_byte(*byte, &mut text)?;
        }
    }
    if !ended {
        text.push('\\')?;
    }
    Ok(text)
}
