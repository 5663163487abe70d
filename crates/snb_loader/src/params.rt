//! The parameter files of a folder, read into lists.

ghost use Rattle.std.specs.Prelude.{◌≡◌, ◌≢◌, ◌≤◌, ◌++◌, ℕ, [], IfOk, OnErr, OnOk, map};
ghost use Rattle.snb_base.specs.Reads.{IsShelfRead};
ghost use Rattle.snb_schema.specs.declared.limits.TheConstants.{MAX_BYTES, MAX_ROWS};
ghost use Rattle.snb_schema.specs.Frequencies.{frequency_at};
ghost use Rattle.snb_schema.specs.Queries.{IsComplex};
ghost use Rattle.snb_schema.specs.QueryLists.{AreOf, HaveParameters, list_of};
ghost use Rattle.snb_input_files.specs.Format.{Lawful};
ghost use Rattle.snb_input_files.specs.Loading.{is_read_fault};
ghost use Rattle.snb_input_files.specs.Names.{Allows, IsNameIn};
ghost use Rattle.snb_input_files.specs.Stages.{AreRising, IsStage, IsWalkWithin, before};
ghost use Rattle.snb_loader.specs.Params.{AreOfEach, HasHeard, IsParamFileSink, IsParamsAnswer, asked, params_format, params_stage, query_in as query_within};

use snb_base::Shelf;
use snb_input_files::{FileSink, Load, Series, Used, Walk, walk_stage};
use snb_input_lines::Sink;
use snb_schema::{
    COMPLEX_QUERIES, Fault, FileId, FileKind, Frequencies, Lists, MAX_ROWS, Query, Refusal,
};
use snb_streams::{QueryLines, one_query};
use std::alloc::{AllocError, Global};
use std::marker::Model;
use std::mem;

// The number of the query whose parameters a file of this kind has; any other file gives 0.
fn query_in(kind: FileKind) -> u32
    ensures { result ≡ query_within kind }
{
    match kind {
        FileKind::Params { query } => query,
        FileKind::Table { .. }
        | FileKind::PersonStream
        | FileKind::ForumStream
        | FileKind::Log
        | FileKind::Cases => 0,
    }
}

/// Takes the parameters of files, file by file.
#[derive(Drop)]
pub(crate) struct ParamFileSink {
    alloc: Global,
    done: Vec<Vec<Query>>,
    mine: Vec<Query>,
}

impl Model for ParamFileSink {
    ghost use Rattle.std.specs.Prelude.{map};
    ghost use Rattle.snb_loader.specs.Params.{ParamLines};

    ghost Value = { ParamLines };

    ghost view = { λ s. record { done = map (λ v. v.items) s.done.items; mine = s.mine.items } };
}

impl ParamFileSink {
    // No parameters. Takes no memory.
    fn new(alloc: Global) -> ParamFileSink
        ensures { result ≡ record { done = []; mine = [] } }
    {
        ParamFileSink {
            alloc,
            done: Vec::new(alloc),
            mine: Vec::new(alloc),
        }
    }
}

impl Sink<Query> for ParamFileSink {
    ghost use Rattle.std.specs.Prelude.{refl};
    ghost use Rattle.snb_loader.specs.Params.{param_sink};

    ghost meaning = { param_sink };

    fn put(&mut self, _file: FileId, item: Query) -> Result<(), Fault> {
        self.mine.push(item)?;
        Ok(())
    }

    fn at_end(&self, file: FileId) -> Option<Refusal> {
        if self.mine.is_empty() {
            Some(Refusal::NoParameters { file })
        } else {
            None
        }
    }

    fn next_file(&mut self) -> Result<(), AllocError> {
        let queries = mem::replace(&mut self.mine, Vec::new(self.alloc));
        self.done.push(queries)?;
        Ok(())
    }

    ghost same_self = { λ _. refl };
}

impl FileSink<QueryLines> for ParamFileSink {
    ghost use Rattle.snb_input_files.specs.Format.{stage_by};
    ghost use Rattle.snb_loader.specs.Params.{HasHeard, params_rules, query_in};

    ghost stage = { stage_by (λ file. query_in file.kind) params_rules HasHeard };

    fn grammar(&self, file: FileId) -> QueryLines {
        QueryLines::new(self.alloc, query_in(file.kind))
    }

    fn most(&self) -> Option<u64> {
        Some(MAX_ROWS)
    }
}

/// The sink is one of parameter files. A line says one query at most, and is refused in one way at most.
pub(crate) fn params_are_lawful()
    ensures lawful { Lawful params_format }
    ensures right { IsParamFileSink }
{
    one_query();
}

// The parameter files of the queries with a frequency.
fn stage_of(alloc: Global, frequencies: &Frequencies) -> Result<Vec<Series>, AllocError>
    ensures { IfOk result (λ stage. stage.items ≡ params_stage frequencies.now) }
{
    COMPLEX_QUERIES
        .iter()
        .copied()
        .filter(|query| frequencies.of(*query) > 0)
        .map(|query| Series {
            kind: FileKind::Params { query },
            needed: true,
            most: 1,
            what: None,
        })
        .collect(alloc)
}

// Appends these to the list of the query.
fn add_list(lists: &mut Lists, query: u32, list: Vec<Query>) -> Result<(), AllocError>
    requires complex { IsComplex query }
    requires kind { AreOf query list.items }
    ensures added { OnOk result (list_of lists.new query ≡ list_of lists.old query ++ list.items) }
    ensures others { OnOk result ((other : ℕ) → other ≢ query → list_of lists.new other ≡ list_of lists.old other) }
{
    for one in list {
        lists.push(query, one)?;
    }
    Ok(())
}

// The lists of the queries with a frequency, which are in turn what this sink took; the others are
// empty.
fn lists_of(
    alloc: Global,
    frequencies: &Frequencies,
    file_sink: ParamFileSink,
) -> Result<Lists, AllocError>
    requires kinds { AreOfEach (asked frequencies.now) file_sink.done }
    ensures lists { IfOk result (λ lists. map (list_of lists) (asked frequencies.now) ≡ file_sink.done) }
    ensures others { IfOk result
        (λ lists. (query : ℕ) → frequency_at frequencies.now query ≡ 0 → list_of lists query ≡ []) }
{
    let mut lists = Lists::new(alloc);
    let mut left = file_sink.done.into_iter();
    for query in COMPLEX_QUERIES {
        if frequencies.of(query) > 0 {
            match left.next() {
                Some(list) => add_list(&mut lists, query, list)?,
                None => unreachable!(),
            }
        }
    }
    Ok(lists)
}

/// Reads the parameter files of the complex queries into lists. The files of the queries with a
/// frequency are read, by the rising numbers of the queries; no other is looked for. The list of such a
/// query has an item for each data line of its file, in order, and so at least one (`full`); the list
/// of any other query is empty. Each file must be there, and begins with a header.
///
/// `used` is what was read of the input before, within the limits on bytes (`bytes`) and on data lines
/// (`rows`). With an `Ok` it counts the parameter files too, and is within both limits again
/// (`within`). With an error it stays as it was (`err`).
///
/// `Refused` is the first thing wrong, file after file: it isn't held (`Absent`); one of its lines is
/// refused; none of its lines has a byte (`NoHeader`); it has no data line (`NoParameters`). A line is
/// refused for the first of these: bytes past the most that are read reach it (`TooLarge`); it begins
/// with a byte order mark (`BadLine` in column 1); it isn't UTF-8 (`NotUtf8`); it is the header, and
/// hasn't a field for each parameter of the query (`BadLine` in column 0); its bad column by
/// `read_parameters` (`BadLine`); it is a data line too many (`TooMany`). A line without a byte is refused
/// only as too large. `ReadFault` is a read that failed, and `Memory` want of memory.
///
/// The shelf may be asked for the parameter files of the queries with a frequency in the folder (`allowed`).
pub fn load_params<S: Shelf>(
    alloc: Global,
    shelf: &mut S,
    folder: &str,
    frequencies: &Frequencies,
    used: &mut Used,
) -> Result<Lists, Load>
    requires bytes { used.old.bytes ≤ MAX_BYTES }
    requires rows { used.old.rows ≤ MAX_ROWS }
    requires allowed { Allows (S.may shelf.old) (IsNameIn (params_stage frequencies.now) folder.now) }
    ensures answer { IsParamsAnswer (S.contents shelf.old) folder.now frequencies.now used.old used.new result }
    ensures full { IfOk result (λ lists. HaveParameters lists frequencies.now) }
    ensures within { OnOk result ((used.new.bytes ≤ MAX_BYTES) × (used.new.rows ≤ MAX_ROWS)) }
    ensures err { OnErr result (used.new ≡ used.old) }
    ensures read { IsShelfRead (is_read_fault result) S.Shelf shelf.old shelf.new }
{
    params_are_lawful();
    let stage = stage_of(alloc, frequencies)?;
    let walk = match walk_stage::<S, QueryLines, ParamFileSink>(
        alloc,
        shelf,
        folder,
        &stage,
        *used,
        ParamFileSink::new(alloc),
    ) {
        Ok(walk) => walk,
        Err(load) => return Err(load),
    };
    let lists = lists_of(alloc, frequencies, walk.file_sink)?;
    *used = walk.used;
    Ok(lists)
}
