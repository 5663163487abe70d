//! The update streams of a folder, read into lanes.

ghost use Rattle.std.specs.Prelude.{◌≡◌, ◌≤◌, ◌+◌, All, IfOk, OnErr, OnOk, length};
ghost use Rattle.snb_base.specs.Reads.{IsShelfRead};
ghost use Rattle.snb_schema.specs.declared.limits.TheConstants.{MAX_BYTES, MAX_LANES, MAX_ROWS};
ghost use Rattle.snb_schema.specs.LineLanes.{update_count};
ghost use Rattle.snb_schema.specs.StreamLines.{AreOfStreams};
ghost use Rattle.snb_input_files.specs.Loading.{is_read_fault};
ghost use Rattle.snb_input_files.specs.Names.{Allows, IsNameIn};
ghost use Rattle.snb_loader.specs.Lanes.{AreTaken, IsLanesAnswer};
ghost use Rattle.snb_loader.specs.Order.{stream_series};

use crate::order::{FORUM_STREAMS, PERSON_STREAMS};
use crate::streams::{StreamFileSink, load_stage};
use snb_base::Shelf;
use snb_input_files::{Load, Used, stages_join};
use snb_schema::Lanes;
use std::alloc::{AllocError, Global};

// The lanes of what these sinks of person streams and of forum streams took.
fn lanes_of(
    alloc: Global,
    persons: StreamFileSink,
    forums: StreamFileSink,
) -> Result<Lanes, AllocError>
    requires persons { length persons.done ≤ MAX_LANES }
    requires forums { length forums.done ≤ MAX_LANES }
    ensures value { IfOk result (λ lanes. lanes ≡ record { persons = persons.done; forums = forums.done }) }
    ensures taken { IfOk result (λ lanes. All AreTaken lanes.persons × All AreTaken lanes.forums) }
{
    let mut lanes = Lanes::new(alloc);
    for lines in persons.into_streams() {
        lanes.push_person(lines)?;
    }
    for lines in forums.into_streams() {
        lanes.push_forum(lines)?;
    }
    Ok(lanes)
}

/// Reads the update streams of the folder into lanes: the person streams by their parts from 0 on up to
/// the first that isn't held, then the forum streams likewise. There may be none. A stream is a lane,
/// and each of its lines that has a byte is a line of the lane, numbered as in the file. Each line is
/// that of some text, in a lane t never falls, and a lane of persons has the inserts 1 and 8 alone, a
/// forum lane 2 to 7 alone (`streams`).
///
/// `used` is what was read of the input before, within the limits on bytes (`bytes`) and on data lines
/// (`rows`). With an `Ok` it counts the streams too, of which each line of the lanes is a data line
/// (`counted`), and is within both limits again (`within`). With an error it stays as it was (`err`).
///
/// `Refused` is the first thing wrong, stream after stream. A line is refused for the first of these:
/// bytes past the most that are read reach it (`TooLarge`); it begins with a byte order mark (`BadLine`
/// in column 1); it isn't UTF-8 (`NotUtf8`); its bad column by `read_insert`, with the inserts of its
/// kind of stream (`BadLine`); it is a data line too many (`TooMany`); its t is below that of the line
/// before (`OutOfOrder`). A line without a byte is refused only as too large. After `MAX_LANES` streams
/// of a kind one more is too many (`TooMany`), and isn't read. `ReadFault` is a read that failed, and
/// `Memory` want of memory.
///
/// The shelf may be asked for the streams of both kinds in the folder, and for the one too many of each
/// (`allowed`).
pub fn load_lanes<S: Shelf>(
    alloc: Global,
    shelf: &mut S,
    folder: &str,
    used: &mut Used,
) -> Result<Lanes, Load>
    requires bytes { used.old.bytes ≤ MAX_BYTES }
    requires rows { used.old.rows ≤ MAX_ROWS }
    requires allowed { Allows (S.may shelf.old) (IsNameIn stream_series folder.now) }
    ensures answer { IsLanesAnswer (S.contents shelf.old) folder.now used.old used.new result }
    ensures streams { IfOk result AreOfStreams }
    ensures counted { IfOk result (λ lanes. used.new.rows ≡ used.old.rows + update_count lanes) }
    ensures within { OnOk result ((used.new.bytes ≤ MAX_BYTES) × (used.new.rows ≤ MAX_ROWS)) }
    ensures err { OnErr result (used.new ≡ used.old) }
    ensures read { IsShelfRead (is_read_fault result) S.Shelf shelf.old shelf.new }
{
    stages_join();
    let persons = match load_stage(alloc, shelf, folder, &PERSON_STREAMS, *used) {
        Ok(walk) => walk,
        Err(load) => return Err(load),
    };
    let forums = match load_stage(alloc, shelf, folder, &FORUM_STREAMS, persons.used) {
        Ok(walk) => walk,
        Err(load) => return Err(load),
    };
    let lanes = lanes_of(alloc, persons.file_sink, forums.file_sink)?;
    *used = forums.used;
    Ok(lanes)
}
