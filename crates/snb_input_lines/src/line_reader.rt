//! The reader of lines.

ghost use Rattle.std.specs.Prelude.{◌≡◌, ◌+◌, ◌≤◌, length, OnOk, OnErr, None, Some, false, option_map};
ghost use Rattle.snb_schema.specs.declared.limits.TheConstants.{MAX_BYTES};
ghost use Rattle.snb_schema.specs.Faults.{OnBad};
ghost use Rattle.snb_input_lines.specs.Feeding.{HasRead, HasRunOut, HasStopped, HasStoppedAtEnd, IsSameFile, KeepsFault, OnMemory, at_begin, at_file_end, fed_more, left_lines, new_lines};
ghost use Rattle.snb_input_lines.specs.Language.{Fits};
ghost use Rattle.snb_input_lines.specs.Reading.{end_fault};

use crate::grammar::Grammar;
use crate::open::Open;
use crate::progress::{Progress, Source, finish, take_piece};
use crate::sink::Sink;
use snb_schema::{Fault, FileId};
use std::alloc::Global;
use std::marker::Model;

/// Reads the lines of a file that comes in pieces, which are cut anywhere, by a grammar. Of what it was
/// fed it keeps the line begun alone.
///
/// A line that begins with a byte order mark is refused as `BadLine` in column 1, and one that isn't
/// UTF-8 as `NotUtf8`. A line without a byte is counted and passed over.
#[derive(Drop)]
pub struct LineReader<G: Grammar> {
    source: Source<G>,
    progress: Progress<G::Known>,
    fed: u64,
    over: bool,
    fault: Option<Fault>,
}

impl<G: Grammar> Model for LineReader<G> {
    ghost use Rattle.snb_input_lines.specs.Feeding.{Reader};

    ghost Value = { Reader G G.Known };

    ghost use Rattle.snb_input_lines.specs.View.{view_of, IsSound};

    ghost view = { view_of };

    ghost invariant = { IsSound };
}

impl<G: Grammar> LineReader<G> {
    /// A reader of the file from its first byte on, by this grammar. Takes no memory.
    pub fn of_file(alloc: Global, file: FileId, grammar: G) -> LineReader<G>
        ensures { result ≡ at_begin file grammar (G.language grammar).begins }
    {
        let known = grammar.begin();
        LineReader {
            source: Source {
                alloc,
                file,
                grammar,
            },
            progress: Progress {
                ended: 0,
                begun: Vec::new(alloc),
                known,
            },
            fed: 0,
            over: false,
            fault: None,
        }
    }

    /// How many bytes the reader was fed.
    pub fn fed(&self) -> u64
        ensures { result ≡ self.now.fed }
    {
        self.fed
    }

    /// How many lines have ended, as long as the reader keeps no fault.
    pub fn ended(&self) -> u32
        ensures { result ≡ self.now.ended }
    {
        self.progress.ended
    }

    /// What is known of the file, as long as the reader keeps no fault: what its header said.
    pub fn known(&self) -> Option<&G::Known>
        ensures { option_map (λ k. k.now) result ≡ self.now.known }
    {
        self.progress.known.as_ref()
    }

    /// Takes the next piece of the file, and tells the sink the items of the lines that end in it, each
    /// line at its `\n` and numbered from 1. The pieces may be cut anywhere, and are 268,435,456 bytes at
    /// most together. None follows an `end_to` that answered Ok. The sink may be told what lines spell.
    ///
    /// The error is the first line that is refused, or want of memory. The sink has the items of the
    /// lines before it. From then on the reader answers that error, and tells nothing.
    pub fn feed_to<S: Sink<G::Item>>(&mut self, piece: &[u8], sink: &mut S) -> Result<(), Fault>
        requires bytes { self.old.fed + length piece.now ≤ MAX_BYTES }
        requires goes_on { self.old.over ≡ false }
        requires fits { Fits (G.language self.old.grammar) S.meaning.fits }
        ensures kept { KeepsFault result self.old sink.old self.new sink.new }
        ensures was_good { OnOk result (self.old.fault ≡ None) }
        ensures ok { OnOk result
            (HasRead (G.language self.old.grammar) S.meaning.takes (new_lines self.old piece.now) self.old sink.old
            self.new sink.new) }
        ensures after { OnOk result (self.new ≡ fed_more self.old piece.now self.new.known) }
        ensures bad { self.old.fault ≡ None → OnBad result
            (HasStopped (G.language self.old.grammar) S.meaning.takes S.meaning.refuses S.meaning.same
            (new_lines self.old piece.now) self.old sink.old self.new sink.new) }
        ensures memory { self.old.fault ≡ None → OnMemory result
            (HasRunOut (G.language self.old.grammar) S.meaning.takes S.meaning.same (new_lines self.old piece.now)
            self.old sink.old self.new sink.new) }
        ensures same { OnErr result (IsSameFile self.old self.new) }
    {
        if let Some(fault) = self.fault {
            return Err(fault);
        }
        let taken = take_piece(&self.source, &mut self.progress, piece, sink);
        match taken {
            Ok(()) => self.fed += piece.len() as u64,
            Err(fault) => self.fault = Some(fault),
        }
        taken
    }

    /// Ends the file, and tells the sink the item of a last line without a `\n`, where it has a byte. No
    /// `end_to` before it answered Ok. Once this has answered Ok, the reader is fed and ended no more.
    ///
    /// The error is that last line, where it is refused, or that a header is due, or what the sink has
    /// against the end of the file, or want of memory. It is kept as an error of `feed_to` is.
    pub fn end_to<S: Sink<G::Item>>(&mut self, sink: &mut S) -> Result<(), Fault>
        requires goes_on { self.old.over ≡ false }
        requires fits { Fits (G.language self.old.grammar) S.meaning.fits }
        ensures kept { KeepsFault result self.old sink.old self.new sink.new }
        ensures was_good { OnOk result (self.old.fault ≡ None) }
        ensures ok { OnOk result
            (HasRead (G.language self.old.grammar) S.meaning.takes (left_lines self.old) self.old sink.old self.new
            sink.new) }
        ensures ends { OnOk result
            (end_fault self.old.file self.new.known (S.meaning.ends sink.new self.old.file) ≡ None) }
        ensures after { OnOk result (self.new ≡ at_file_end self.old self.new.known) }
        ensures bad { self.old.fault ≡ None → OnBad result
            (HasStoppedAtEnd (G.language self.old.grammar) S.meaning.takes S.meaning.refuses S.meaning.same
            S.meaning.ends (left_lines self.old) self.old sink.old self.new sink.new) }
        ensures memory { self.old.fault ≡ None → OnMemory result
            (HasRunOut (G.language self.old.grammar) S.meaning.takes S.meaning.same (left_lines self.old) self.old
            sink.old self.new sink.new) }
        ensures same { OnErr result (IsSameFile self.old self.new) }
    {
        if let Some(fault) = self.fault {
            return Err(fault);
        }
        let taken = finish(&self.source, &mut self.progress, sink);
        match taken {
            Ok(()) => self.over = true,
            Err(fault) => self.fault = Some(fault),
        }
        taken
    }
}

impl<G: Grammar + Open> LineReader<G> {
    /// A reader of the file of this name, from its first byte on. There is such a file. Takes no
    /// memory.
    pub fn new(alloc: Global, named: G::Named) -> LineReader<G>
        requires { G.can_open named }
        ensures { result ≡ at_begin (G.file_of named) (G.grammar_of named) (G.language (G.grammar_of named)).begins }
    {
        LineReader::of_file(alloc, G::file(named), G::open(alloc, named))
    }
}
