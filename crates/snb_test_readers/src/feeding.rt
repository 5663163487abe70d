//! The pieces of a file, fed to a reader.

ghost use Rattle.std.specs.Prelude.{◌≡◌, ◌+◌, ◌≤◌, ℕ, Bool, OnErr, OnOk, false, length};
ghost use Rattle.snb_schema.specs.declared.limits.TheConstants.{MAX_BYTES};

use crate::told::told_refusal;
use snb_schema::{Fault, Refusal};
use snb_test_script::{Flaw, Lines};
use std::alloc::{AllocError, Global};

/// What came of a file that was fed.
#[derive(Clone, Copy)]
pub(crate) enum Came {
    /// It was read to its end, after so many items.
    Ended { items: usize },
    /// It was refused, and each later call was refused for the same.
    Refused { refusal: Refusal },
    /// It was refused, and a later call answered otherwise.
    Changed,
}

/// What makes items of the pieces of a file.
pub(crate) trait Feeds {
    /// What the lines of the file say.
    type Item: Drop;

    /// How many bytes it was fed.
    ghost fed: { Self → ℕ };

    /// Whether the file has ended.
    ghost over: { Self → Bool };

    /// Takes the next piece of the file, which hasn't ended, and appends the items of the lines that end in it.
    fn take(&mut self, piece: &[u8], into: &mut Vec<Self::Item>) -> Result<(), Fault>
        requires bytes { fed self.old + length piece.now ≤ MAX_BYTES }
        requires goes_on { over self.old ≡ false }
        ensures open { over self.new ≡ false }
        ensures more { OnOk result (fed self.new ≡ fed self.old + length piece.now) }
        ensures same { OnErr result (fed self.new ≡ fed self.old) };

    /// Ends the file, which hasn't ended, and appends the last item.
    fn finish(&mut self, into: &mut Vec<Self::Item>) -> Result<(), Fault>
        requires goes_on { over self.old ≡ false }
        ensures open { OnErr result (over self.new ≡ false) }
        ensures same { OnErr result (fed self.new ≡ fed self.old) };

    /// The item as a line.
    fn told_item(&self, alloc: Global, item: &Self::Item) -> Result<String, Flaw>;

    /// What is told last of a file that is read to its end; nothing where that is empty.
    fn told_end(&self, alloc: Global) -> Result<String, AllocError>;
}

// Whether the reader answers with this refusal.
fn is_same(alloc: Global, answer: Result<(), Fault>, refusal: Refusal) -> Result<bool, Flaw> {
    match answer {
        Err(Fault::Bad { refusal: again }) => {
            let one = told_refusal(alloc, refusal)?;
            let other = told_refusal(alloc, again)?;
            Ok(one.as_str() == other.as_str())
        }
        Err(Fault::Memory) => Err(Flaw::Memory),
        Ok(()) => Ok(false),
    }
}

// What the reader answers once it has refused the file: it is fed this piece, and ended.
fn refused<R: Feeds>(
    alloc: Global,
    reader: &mut R,
    fault: Fault,
    piece: &[u8],
    into: &mut Vec<R::Item>,
) -> Result<Came, Flaw>
    requires bytes { R.fed reader.old + length piece.now ≤ MAX_BYTES }
    requires goes_on { R.over reader.old ≡ false }
{
    let Fault::Bad { refusal } = fault else {
        return Err(Flaw::Memory);
    };
    let items = into.len();
    let fed = reader.take(piece, into);
    let ended = reader.finish(into);
    if into.len() == items && is_same(alloc, fed, refusal)? && is_same(alloc, ended, refusal)? {
        return Ok(Came::Refused { refusal });
    }
    Ok(Came::Changed)
}

// Feeds both pieces to a reader that was fed nothing, and ends the file. A refused file is fed and ended again.
fn fed<R: Feeds>(
    alloc: Global,
    reader: &mut R,
    first: &[u8],
    second: &[u8],
    into: &mut Vec<R::Item>,
) -> Result<Came, Flaw>
    requires fresh { R.fed reader.old ≡ 0 }
    requires goes_on { R.over reader.old ≡ false }
    requires bytes { length first.now + length second.now + length second.now ≤ MAX_BYTES }
{
    match reader.take(first, into) {
        Ok(()) => {}
        Err(fault) => return refused(alloc, reader, fault, second, into),
    }
    match reader.take(second, into) {
        Ok(()) => {}
        Err(fault) => return refused(alloc, reader, fault, second, into),
    }
    let items = into.len();
    match reader.finish(into) {
        Ok(()) => Ok(Came::Ended { items }),
        Err(fault) => refused(alloc, reader, fault, second, into),
    }
}

// Tells the items, with `ended` where the file was ended.
fn tell_items<R: Feeds>(
    alloc: Global,
    reader: &R,
    items: &[R::Item],
    ended: usize,
    answer: &mut Lines,
) -> Result<(), Flaw> {
    for (place, item) in items.iter().enumerate() {
        if place == ended {
            answer.add("ended")?;
        }
        let line = reader.told_item(alloc, item)?;
        answer.add(line.as_str())?;
    }
    if items.len() == ended {
        answer.add("ended")?;
    }
    Ok(())
}

/// What comes of a file that is fed to the reader in these two pieces: the items, with `ended` before those that
/// come where it is ended, and what the header said; or the items before the first refused line, and what that is
/// refused for.
pub(crate) fn told_fed<R: Feeds>(
    alloc: Global,
    reader: &mut R,
    first: &[u8],
    second: &[u8],
) -> Result<String, Flaw>
    requires fresh { R.fed reader.old ≡ 0 }
    requires goes_on { R.over reader.old ≡ false }
    requires bytes { length first.now + length second.now + length second.now ≤ MAX_BYTES }
{
    let mut items = Vec::new(alloc);
    let came = fed(alloc, reader, first, second, &mut items)?;
    let mut answer = Lines::new(alloc);
    match came {
        Came::Ended { items: ended } => {
            tell_items(alloc, reader, &items, ended, &mut answer)?;
            let last = reader.told_end(alloc)?;
            if !last.is_empty() {
                answer.add(last.as_str())?;
            }
        }
        Came::Refused { refusal } => {
            tell_items(alloc, reader, &items, usize::MAX, &mut answer)?;
            let why = told_refusal(alloc, refusal)?;
            answer.add(why.as_str())?;
        }
        Came::Changed => answer.add("refused for something else when it was fed again")?,
    }
    Ok(answer.told())
}
