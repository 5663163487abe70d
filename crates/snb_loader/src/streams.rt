//! What takes the lines of the update streams of a folder.

ghost use Rattle.std.specs.Prelude.{◌≡◌, ◌≤◌, [], All, IfOk, Some, map};
ghost use Rattle.snb_base.specs.Reads.{IsShelfRead};
ghost use Rattle.snb_schema.specs.declared.limits.TheConstants.{MAX_BYTES, MAX_ROWS};
ghost use Rattle.snb_input_files.specs.Format.{Lawful};
ghost use Rattle.snb_input_files.specs.Loading.{is_read_fault};
ghost use Rattle.snb_input_files.specs.Names.{Allows, IsNameIn};
ghost use Rattle.snb_input_files.specs.Stages.{AreRising, IsStage, IsWalkWithin, before};
ghost use Rattle.snb_loader.specs.Lanes.{AreTaken, InsertsOfFieldsFit, IsHeard, IsStreamFileSink, stream_format};

use snb_base::Shelf;
use snb_columns::own_line;
use snb_input_files::{FileSink, Load, Series, Used, Walk, walk_stage};
use snb_input_lines::Sink;
use snb_schema::{Fault, FileId, Line, MAX_ROWS, Refusal};
use snb_streams::{InOrder, StreamLines, one_fault, one_insert_of_fields};
use std::alloc::{AllocError, Global};
use std::marker::Model;
use std::mem;

// A stream before its first insert.
fn no_lines(alloc: Global) -> InOrder<Vec<Line>>
    ensures last { result.last ≡ 0 }
    ensures none { result.sink.items ≡ [] }
{
    InOrder {
        last: 0,
        sink: Vec::new(alloc),
    }
}

/// Takes the inserts of streams, stream by stream. Some text is each line, and in a stream t never
/// falls.
pub(crate) struct StreamFileSink {
    alloc: Global,
    done: Vec<Vec<Line>>,
    mine: InOrder<Vec<Line>>,
}

impl Drop for StreamFileSink {
    fn drop(self) {
        let StreamFileSink {
            alloc: _,
            done: _,
            mine: _,
        } = self;
    }
}

impl Model for StreamFileSink {
    ghost use Rattle.std.specs.Prelude.{All, map};
    ghost use Rattle.snb_loader.specs.Lanes.{AreTaken, IsLastOf, StreamLines};

    ghost Value = { StreamLines };

    ghost view = { λ s. record { done = map (λ v. v.items) s.done.items; mine = s.mine.sink.items } };

    ghost invariant = { λ s.
        All AreTaken (map (λ v. v.items) s.done.items)
        × AreTaken s.mine.sink.items
        × IsLastOf s.mine.sink.items s.mine.last };
}

impl StreamFileSink {
    /// No inserts. Takes no memory.
    pub(crate) fn new(alloc: Global) -> StreamFileSink
        ensures { result ≡ record { done = []; mine = [] } }
    {
        StreamFileSink {
            alloc,
            done: Vec::new(alloc),
            mine: no_lines(alloc),
        }
    }

    /// The lines of the streams, stream by stream.
    pub(crate) fn into_streams(self) -> Vec<Vec<Line>>
        ensures value { map (λ v. v.items) result.items ≡ self.done }
        ensures taken { All AreTaken self.done }
    {
        let StreamFileSink {
            alloc: _,
            done,
            mine: _,
        } = self;
        done
    }
}

// An insert that texts of fields spell is that of some line.
fn inserts_of_fields_fit()
    ensures { InsertsOfFieldsFit }
{
    own_line();
}

/// The sink is one of the files of streams. A line says one insert at most, which is that of some line,
/// and is refused in one way at most.
pub(crate) fn streams_are_lawful()
    ensures lawful { Lawful stream_format }
    ensures right { IsStreamFileSink }
{
    one_insert_of_fields();
    one_fault();
    inserts_of_fields_fit();
}

impl Sink<Line> for StreamFileSink {
    ghost use Rattle.std.specs.Prelude.{refl};
    ghost use Rattle.snb_loader.specs.Lanes.{stream_sink};

    ghost meaning = { stream_sink };

    fn put(&mut self, file: FileId, item: Line) -> Result<(), Fault> {
        self.mine.put(file, item)
    }

    fn at_end(&self, _file: FileId) -> Option<Refusal> {
        None
    }

    fn next_file(&mut self) -> Result<(), AllocError> {
        let mine = mem::replace(&mut self.mine, no_lines(self.alloc));
        self.done.push(mine.sink)?;
        Ok(())
    }

    ghost same_self = { λ _. refl };
}

impl FileSink<StreamLines> for StreamFileSink {
    ghost use Rattle.snb_input_files.specs.Format.{stage_by};
    ghost use Rattle.snb_loader.specs.Lanes.{IsHeard, stream_rules};

    ghost stage = { stage_by (λ file. file.kind) stream_rules IsHeard };

    fn grammar(&self, file: FileId) -> StreamLines {
        StreamLines::new(self.alloc, file.kind)
    }

    fn most(&self) -> Option<u64> {
        Some(MAX_ROWS)
    }
}

/// Reads the streams of a stage of the folder, after so many bytes and data lines. `Refused` says what
/// is wrong first with the files, `ReadFault` that the shelf failed, and `Memory` that memory doesn't
/// suffice.
///
/// What was read before keeps within the limits (`bytes`, `rows`), the series come in the order of files
/// (`rising`), and the shelf may be asked for their files (`allowed`).
pub(crate) fn load_stage<S: Shelf>(
    alloc: Global,
    shelf: &mut S,
    folder: &str,
    stage: &[Series],
    used: Used,
) -> Result<Walk<StreamFileSink>, Load>
    requires bytes { used.bytes ≤ MAX_BYTES }
    requires rows { used.rows ≤ MAX_ROWS }
    requires rising { AreRising 0 stage.now }
    requires allowed { Allows (S.may shelf.old) (IsNameIn stage.now folder.now) }
    ensures answer { IsStage stream_format IsHeard (S.contents shelf.old) folder.now stage.now (before used) result }
    ensures within { IfOk result (IsWalkWithin (Some MAX_ROWS)) }
    ensures read { IsShelfRead (is_read_fault result) S.Shelf shelf.old shelf.new }
{
    streams_are_lawful();
    walk_stage::<S, StreamLines, StreamFileSink>(
        alloc,
        shelf,
        folder,
        stage,
        used,
        StreamFileSink::new(alloc),
    )
}
