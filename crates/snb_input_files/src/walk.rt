//! The files of a stage of an input, looked for in order.

ghost use Rattle.std.specs.Prelude.{◌≡◌, ◌++◌, ◌∷◌, ◌≤◌, ◌<◌, ◌^◌, ℕ, [], List, IfOk, length, string_bytes, true};
ghost use Rattle.snb_base.specs.Reads.{IsShelfRead};
ghost use Rattle.snb_schema.specs.declared.limits.TheConstants.{MAX_BYTES};
ghost use Rattle.snb_input_lines.specs.Counts.{IsUnder};
ghost use Rattle.snb_schema.specs.FileNames.{name_of};
ghost use Rattle.snb_input_files.specs.Format.{AreTakers, format_in};
ghost use Rattle.snb_input_files.specs.Loading.{IsWithin, is_read_fault};
ghost use Rattle.snb_input_files.specs.Looking.{IsLook, IsNotRefused, IsPeek, IsSeries};
ghost use Rattle.snb_input_files.specs.Names.{Allows, IsNameIn};
ghost use Rattle.snb_input_files.specs.Stages.{AreRising, IsStage, IsWalkWithin, Walked, before};
ghost use Rattle.snb_input_files.specs.Walk.{Before, Look};

use crate::file::{load_into, piece_buffer};
use crate::file_sink::FileSink;
use crate::found::Found;
use crate::load::{Load, Used};
use crate::series::Series;
use snb_base::{Got, Shelf};
use snb_input_lines::{Grammar, LineReader};
use snb_schema::{FileId, Refusal, name_text};
use std::alloc::{AllocError, Global};

/// How far an input is read.
#[derive(Drop)]
pub struct Walk<P> {
    /// How much of it was read.
    pub used: Used,
    /// What took the items.
    pub file_sink: P,
}

// The path of a file of the folder.
fn path_of(alloc: Global, folder: &str, file: FileId) -> Result<String, AllocError>
    ensures { IfOk result (λ path. string_bytes path ≡ folder.now ++ 47 ∷ name_of file) }
{
    let name = name_text(alloc, file)?;
    format!(in alloc; "{folder}/{name}")
}

// Whether the folder holds a file. Its bytes aren't taken.
fn is_held<S: Shelf>(alloc: Global, shelf: &mut S, folder: &str, file: FileId) -> Result<bool, Load>
    requires allowed { S.may shelf.old (folder.now ++ 47 ∷ name_of file) ≡ true }
    ensures told { IfOk result (IsPeek (S.contents shelf.old) folder.now file) }
    ensures refused { IsNotRefused result }
    ensures read { IsShelfRead (is_read_fault result) S.Shelf shelf.old shelf.new }
{
    let path = path_of(alloc, folder, file)?;
    let mut buffer = [0u8; 1];
    match shelf.read(path.as_str(), 0, &mut buffer) {
        Got::Failed => Err(Load::ReadFault),
        Got::Absent => Ok(false),
        Got::Took { .. } => Ok(true),
    }
}

// Looks for a file of the folder, and has the items of its data lines taken. One that is needed is
// refused where it isn't held.
fn look<S: Shelf, G: Grammar + Drop, P: FileSink<G> + Drop>(
    alloc: Global,
    shelf: &mut S,
    folder: &str,
    file: FileId,
    needed: bool,
    walk: Walk<P>,
    buffer: &mut [u8],
) -> Result<Found<P>, Load>
    requires right { AreTakers G.language P.stage P.meaning }
    requires bytes { walk.used.bytes ≤ MAX_BYTES }
    requires rows { IsUnder P.stage.limit walk.used.rows }
    requires room { 0 < length buffer.old }
    requires allowed { S.may shelf.old (folder.now ++ 47 ∷ name_of file) ≡ true }
    ensures answer { (begun : P) (start : Before) (looked : List Look)
        → Walked (format_in G.language P.stage begun) (P.stage.heard begun) start looked walk
        → IsLook (format_in G.language P.stage begun) (P.stage.heard begun) (S.contents shelf.old) folder.now file
        needed start looked walk.used result }
    ensures within { IfOk result (IsWithin P.stage.limit) }
    ensures read { IsShelfRead (is_read_fault result) S.Shelf shelf.old shelf.new }
{
    let path = path_of(alloc, folder, file)?;
    let mut reader = LineReader::of_file(alloc, file, walk.file_sink.grammar(file));
    match load_into(
        shelf,
        path.as_str(),
        file,
        walk.used,
        &mut reader,
        walk.file_sink,
        buffer,
    ) {
        Err(load) => Err(load),
        Ok(Found::Absent { file_sink }) => {
            if needed {
                return Err(Load::Refused {
                    refusal: Refusal::Absent { file },
                });
            }
            Ok(Found::Absent { file_sink })
        }
        Ok(
            Found::Whole {
                mut file_sink,
                used,
            },
        ) => {
            file_sink.next_file()?;
            Ok(Found::Whole { file_sink, used })
        }
    }
}

// Looks for the files of a series, from the first on up to one that isn't held, and has the items of
// their data lines taken. One file too many is refused, and isn't read.
fn walk_series<S: Shelf, G: Grammar + Drop, P: FileSink<G> + Drop>(
    alloc: Global,
    shelf: &mut S,
    folder: &str,
    series: Series,
    walk: Walk<P>,
    buffer: &mut [u8],
) -> Result<Walk<P>, Load>
    requires right { AreTakers G.language P.stage P.meaning }
    requires bytes { walk.used.bytes ≤ MAX_BYTES }
    requires rows { IsUnder P.stage.limit walk.used.rows }
    requires room { 0 < length buffer.old }
    requires few { series.most < 2 ^ 32 }
    requires allowed { Allows (S.may shelf.old) (IsNameIn (series ∷ []) folder.now) }
    ensures answer { (begun : P) (start : Before) (looked : List Look)
        → Walked (format_in G.language P.stage begun) (P.stage.heard begun) start looked walk
        → IsSeries (format_in G.language P.stage begun) (P.stage.heard begun) (S.contents shelf.old) folder.now series
        start looked result }
    ensures within { IfOk result (IsWalkWithin P.stage.limit) }
    ensures read { IsShelfRead (is_read_fault result) S.Shelf shelf.old shelf.new }
{
    let mut so_far = walk;
    let mut needed = series.needed;
    for part in 0..series.most {
        let file = FileId {
            kind: series.kind,
            part,
        };
        let used = so_far.used;
        match look(alloc, shelf, folder, file, needed, so_far, buffer) {
            Err(load) => return Err(load),
            Ok(Found::Absent { file_sink }) => return Ok(Walk { used, file_sink }),
            Ok(Found::Whole { file_sink, used }) => {
                so_far = Walk { used, file_sink };
                needed = false;
            }
        }
    }
    let Some(what) = series.what else {
        return Ok(so_far);
    };
    let beyond = FileId {
        kind: series.kind,
        part: series.most,
    };
    match is_held(alloc, shelf, folder, beyond) {
        Err(load) => Err(load),
        Ok(true) => Err(Load::Refused {
            refusal: Refusal::TooMany { what },
        }),
        Ok(false) => Ok(so_far),
    }
}

/// Reads the files of a stage of an input, after so many bytes and data lines of stages before, and has
/// the items of their data lines taken. The files are those of the folder, series after series, and of
/// each series by their parts from 0 on up to the first that isn't held; what comes after that isn't
/// looked for.
///
/// `Refused` is the first thing wrong in this order: a file that is needed and isn't held (`Absent`),
/// what `load_file` refuses a file for, or one file too many of a series (`TooMany`). The other errors
/// are a read that failed and want of memory. The sink is gone with an error.
///
/// The sink is one of the format (`right`), what was read before is within the limits on bytes
/// (`bytes`) and on data lines (`rows`), and the series come in the order of files (`rising`). The shelf may be
/// asked for each file of the series, and for the one too many of each (`allowed`). The answer is of a sink
/// that was told nothing before.
pub fn walk_stage<S: Shelf, G: Grammar + Drop, P: FileSink<G> + Drop>(
    alloc: Global,
    shelf: &mut S,
    folder: &str,
    stage: &[Series],
    used: Used,
    file_sink: P,
) -> Result<Walk<P>, Load>
    requires right { AreTakers G.language P.stage P.meaning }
    requires bytes { used.bytes ≤ MAX_BYTES }
    requires rows { IsUnder P.stage.limit used.rows }
    requires rising { AreRising 0 stage.now }
    requires allowed { Allows (S.may shelf.old) (IsNameIn stage.now folder.now) }
    ensures answer { P.stage.heard file_sink file_sink [] []
        → IsStage (format_in G.language P.stage file_sink) (P.stage.heard file_sink) (S.contents shelf.old) folder.now
        stage.now (before used) result }
    ensures within { IfOk result (IsWalkWithin P.stage.limit) }
    ensures read { IsShelfRead (is_read_fault result) S.Shelf shelf.old shelf.new }
{
    // All files of the stage are read through one buffer.
    let mut buffer = piece_buffer(alloc)?;
    let mut so_far = Walk { used, file_sink };
    for series in stage {
        match walk_series(alloc, shelf, folder, *series, so_far, &mut buffer) {
            Err(load) => return Err(load),
            Ok(walk) => so_far = walk,
        }
    }
    Ok(so_far)
}
