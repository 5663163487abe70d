//! What is told of checked cases.

ghost use Rattle.std.specs.Prelude.{◌≡◌, ◌++◌, IfOk, OnOk};
ghost use Rattle.snb_validation_model.specs.CheckTexts.{difference_text, tally_status, tally_text};

use snb_read_model::lend_reply;
use snb_validation::reply_text;
use snb_validation_model::{Difference, Tally};
use std::alloc::{AllocError, Global};

// The lines of a difference.
fn difference_lines(alloc: Global, one: &Difference) -> Result<Vec<u8>, AllocError>
    ensures { IfOk result (λ text. text.items ≡ difference_text one.now) }
{
    let line = one.line;
    let mut text = format!(in alloc; "differs line {line}\nexpected ")?.into_bytes();
    reply_text(&lend_reply(&one.expected)?, &mut text)?;
    text.extend_from_slice(b"\ngiven ")?;
    reply_text(&lend_reply(&one.given)?, &mut text)?;
    text.push(b'\n')?;
    Ok(text)
}

/// The lines that `validate` shows: `valid N`, N the reads, where no reply differs, and else
/// `differs line L`, `expected REPLY` and `given REPLY`, where the expected reply is the file's and each
/// reply is compact JSON.
pub fn tally_lines(alloc: Global, tally: &Tally) -> Result<Vec<u8>, AllocError>
    ensures { IfOk result (λ text. text.items ≡ tally_text tally.now) }
{
    match &tally.first {
        Some(one) => difference_lines(alloc, one),
        None => {
            let reads = tally.reads;
            let text = format!(in alloc; "valid {reads}\n")?;
            Ok(text.into_bytes())
        }
    }
}

/// The exit status that goes with these lines: 0 where no reply differs, and else 1. Takes no memory.
pub fn status_of(tally: &Tally) -> u8
    ensures { result ≡ tally_status tally.now }
{
    match tally.first {
        Some(_) => 1,
        None => 0,
    }
}
