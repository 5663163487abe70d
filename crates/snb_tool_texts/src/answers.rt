//! The answers of a run as text.

ghost use Rattle.std.specs.Prelude.{◌≡◌, ◌++◌, [], IfOk, OnOk, codes};
ghost use Rattle.snb_tool_texts.specs.Answers.{answer_line, answers_text, bytes_in};

use snb_answered::{Answered, Done};
use snb_base::OwnedList;
use std::alloc::{AllocError, Global};
use std::mem;

// A text of so many bytes is a piece as it is.
const LONG: usize = 1024;

// A piece of so many bytes is full, so that pieces aren't moved about while they grow.
const FULL: usize = 65536;

// Adds the piece at hand to the pieces, and begins a new one.
fn put_piece(
    alloc: Global,
    pieces: &mut Vec<Vec<u8>>,
    piece: &mut Vec<u8>,
) -> Result<(), AllocError>
    ensures all { OnOk result (bytes_in pieces.new.items ≡ bytes_in pieces.old.items ++ piece.old.items) }
    ensures fresh { OnOk result (piece.new.items ≡ []) }
{
    let full = mem::replace(piece, Vec::new(alloc));
    pieces.push(full)?;
    Ok(())
}

// Adds a text after the piece at hand: a short one to the piece, a long one as a piece of its own.
fn put_text(
    alloc: Global,
    text: Vec<u8>,
    pieces: &mut Vec<Vec<u8>>,
    piece: &mut Vec<u8>,
) -> Result<(), AllocError>
    ensures { OnOk result
        (bytes_in pieces.new.items ++ piece.new.items ≡ (bytes_in pieces.old.items ++ piece.old.items) ++ text.items) }
{
    if text.len() < LONG {
        piece.extend_from_slice(&text)?;
        return Ok(());
    }
    put_piece(alloc, pieces, piece)?;
    pieces.push(text)?;
    Ok(())
}

// Ends the line at hand, and the piece at hand too where it is full.
fn end_line(alloc: Global, pieces: &mut Vec<Vec<u8>>, piece: &mut Vec<u8>) -> Result<(), AllocError>
    ensures { OnOk result
        (bytes_in pieces.new.items ++ piece.new.items ≡ (bytes_in pieces.old.items ++ piece.old.items) ++ codes "\n") }
{
    piece.push(b'\n')?;
    if piece.len() < FULL {
        return Ok(());
    }
    put_piece(alloc, pieces, piece)?;
    Ok(())
}

// Adds the line of a reply after the piece at hand.
fn put_answer(
    alloc: Global,
    mut one: Answered,
    pieces: &mut Vec<Vec<u8>>,
    piece: &mut Vec<u8>,
) -> Result<(), AllocError>
    ensures { OnOk result
        (bytes_in pieces.new.items ++ piece.new.items
        ≡ (bytes_in pieces.old.items ++ piece.old.items) ++ answer_line one) }
{
    let op = one.op;
    let front = one.front;
    let head = format!(in alloc; "{op}|{front}|")?;
    piece.extend_from_slice(head.as_bytes())?;
    let text = mem::replace(&mut one.text, OwnedList::new(alloc));
    put_text(alloc, text.into_vec(), pieces, piece)?;
    end_line(alloc, pieces, piece)
}

/// The answers of the reads of a run, by rising operation, in pieces that follow one another: for each the
/// number of its operation, its front and the JSON text of its reply. A long text is a piece as it is, and
/// isn't copied.
pub fn answer_pieces(alloc: Global, replies: Done) -> Result<Vec<Vec<u8>>, AllocError>
    ensures { IfOk result (λ pieces. bytes_in pieces.items ≡ answers_text replies) }
{
    let mut pieces = Vec::new(alloc);
    let mut piece = Vec::new(alloc);
    piece.extend_from_slice(b"answers|1\n")?;
    for one in replies.into_items() {
        put_answer(alloc, one, &mut pieces, &mut piece)?;
    }
    pieces.push(piece)?;
    Ok(pieces)
}
