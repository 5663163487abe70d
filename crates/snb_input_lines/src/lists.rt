//! Items appended to a list: the sink that takes all, and the reader of lines over it.

ghost use Rattle.std.specs.Prelude.{◌≡◌, ◌+◌, ◌≤◌, ◌++◌, ◌∷◌, [], length, OnOk, OnErr, None, false, refl, IsSome};
ghost use Rattle.snb_schema.specs.declared.limits.TheConstants.{MAX_BYTES};
ghost use Rattle.snb_schema.specs.Faults.{OnBad};
ghost use Rattle.snb_input_lines.specs.Feeding.{IsSameFile, KeepsFault, OnMemory, at_begin, at_file_end, fed_more, left_lines, new_lines};
ghost use Rattle.snb_input_lines.specs.Lists.{HasAppended, HasAppendedSome, HasStoppedAfter, HasStoppedAfterAll};

use crate::grammar::Grammar;
use crate::line_reader::LineReader;
use crate::sink::Sink;
use snb_schema::{Fault, FileId, Refusal};
use std::alloc::AllocError;

impl<T: Drop> Sink<T> for Vec<T> {
    ghost meaning = { record {
      fits = λ _. Unit {0};
      takes = λ old _ item new. new.items ≡ old.items ++ item ∷ [];
      refuses = λ _ _ _ _. ⊥;
      same = λ old new. new.items ≡ old.items;
      ends = λ _ _. None;
      turns = λ old new. new.items ≡ old.items;
    } };

    fn put(&mut self, _file: FileId, item: T) -> Result<(), Fault> {
        self.push(item)?;
        Ok(())
    }

    fn at_end(&self, _file: FileId) -> Option<Refusal> {
        None
    }

    fn next_file(&mut self) -> Result<(), AllocError> {
        Ok(())
    }

    ghost same_self = { λ _. refl };
}

impl<G: Grammar> LineReader<G> {
    /// Takes the next piece of the file, and appends the items of the lines that end in it, each line at
    /// its `\n` and numbered from 1. The pieces may be cut anywhere, and are 268,435,456 bytes at most
    /// together. None follows an `end` that answered Ok.
    ///
    /// The error is the first line that is refused, or want of memory. The items of the lines before it
    /// are appended. From then on the reader answers that error, and appends nothing.
    pub fn feed(&mut self, piece: &[u8], into: &mut Vec<G::Item>) -> Result<(), Fault>
        requires bytes { self.old.fed + length piece.now ≤ MAX_BYTES }
        requires goes_on { self.old.over ≡ false }
        ensures kept { KeepsFault result self.old into.old self.new into.new }
        ensures was_good { OnOk result (self.old.fault ≡ None) }
        ensures ok { OnOk result
            (HasAppended (G.language self.old.grammar) (new_lines self.old piece.now) self.old into.old.items self.new
            into.new.items) }
        ensures after { OnOk result (self.new ≡ fed_more self.old piece.now self.new.known) }
        ensures bad { self.old.fault ≡ None → OnBad result
            (HasStoppedAfter (G.language self.old.grammar) (new_lines self.old piece.now) self.old into.old.items
            self.new into.new.items) }
        ensures memory { self.old.fault ≡ None → OnMemory result
            (HasAppendedSome (G.language self.old.grammar) (new_lines self.old piece.now) self.old into.old.items
            self.new into.new.items) }
        ensures same { OnErr result (IsSameFile self.old self.new) }
    {
        self.feed_to(piece, into)
    }

    /// Ends the file, and appends the item of a last line without a `\n`, where it has a byte. No `end`
    /// before it answered Ok. Once this has answered Ok, the reader is fed and ended no more.
    ///
    /// The error is that last line, where it is refused, or that a header is due, or want of memory. It is
    /// kept as an error of `feed` is.
    pub fn end(&mut self, into: &mut Vec<G::Item>) -> Result<(), Fault>
        requires goes_on { self.old.over ≡ false }
        ensures kept { KeepsFault result self.old into.old self.new into.new }
        ensures was_good { OnOk result (self.old.fault ≡ None) }
        ensures ok { OnOk result
            (HasAppended (G.language self.old.grammar) (left_lines self.old) self.old into.old.items self.new
            into.new.items) }
        ensures headed { OnOk result (IsSome self.new.known) }
        ensures after { OnOk result (self.new ≡ at_file_end self.old self.new.known) }
        ensures bad { self.old.fault ≡ None → OnBad result
            (HasStoppedAfterAll (G.language self.old.grammar) (left_lines self.old) self.old into.old.items self.new
            into.new.items) }
        ensures memory { self.old.fault ≡ None → OnMemory result
            (HasAppendedSome (G.language self.old.grammar) (left_lines self.old) self.old into.old.items self.new
            into.new.items) }
        ensures same { OnErr result (IsSameFile self.old self.new) }
    {
        self.end_to(into)
    }
}
