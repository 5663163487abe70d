//! Where the operations of a plan stand: their t, lanes and places.

ghost use Rattle.std.specs.Prelude.{◌≡◌, ◌+◌, ◌<◌, ◌≤◌, ◌++◌, ◌∷◌, [], length, All, IfOk, OnOk};
ghost use Rattle.snb_schema.specs.declared.limits.TheConstants.{MAX_READS, MAX_ROWS};
ghost use Rattle.snb_schema.specs.LineLanes.{update_count};
ghost use Rattle.snb_history.specs.Schedule.{max_lanes};
ghost use Rattle.snb_plan.specs.Merging.{file_of, kinds_of, lane_of, numbered_lanes, read_lane, AreReads};
ghost use Rattle.snb_plan.specs.Positions.{AreAllPositions, AreUpdatePositions};
ghost use Rattle.snb_plan.specs.Instances.{all_positions, lane_positions, read_positions};

use crate::instances::Instance;
use snb_history::LaneKind;
use snb_schema::{FileId, FileKind, Lanes, Line};
use std::alloc::{AllocError, Global};

/// Where an operation stands.
#[derive(Clone, Copy, PartialEq, Eq, PartialOrd, Ord)]
pub struct Position {
    pub t: u64,
    pub lane: u32,
    pub place: u32,
}

/// The lines of the lane of this number: the forum lanes are numbered after those of persons.
pub fn lane_of(lanes: &Lanes, lane: u32) -> &[Line]
    requires { lane < length (numbered_lanes lanes.now) }
    ensures { result.now ≡ lane_of lanes.now lane }
{
    let persons = lanes.persons();
    if lane < persons {
        lanes.person(lane)
    } else {
        lanes.forum(lane - persons)
    }
}

/// The stream that the lane is read from.
pub fn file_of(lanes: &Lanes, lane: u32) -> FileId
    ensures { result ≡ file_of lanes.now lane }
{
    let persons = lanes.persons();
    if lane < persons {
        FileId {
            kind: FileKind::PersonStream,
            part: lane,
        }
    } else {
        FileId {
            kind: FileKind::ForumStream,
            part: lane - persons,
        }
    }
}

/// The number of the lane of the reads, which is the number of the other lanes.
pub fn read_lane(lanes: &Lanes) -> u32
    ensures value { result ≡ read_lane lanes.now }
    ensures few { result + 1 ≤ max_lanes }
{
    lanes.persons() + lanes.forums()
}

/// The kind of each lane.
pub fn kinds_of(alloc: Global, lanes: &Lanes) -> Result<Vec<LaneKind>, AllocError>
    ensures kinds { IfOk result (λ kinds. kinds.items ≡ kinds_of lanes.now) }
    ensures few { IfOk result (λ kinds. length kinds.items ≤ max_lanes) }
{
    let mut kinds = Vec::new(alloc);
    for _ in 0..lanes.persons() {
        kinds.push(LaneKind::Person)?;
    }
    for _ in 0..lanes.forums() {
        kinds.push(LaneKind::Forum)?;
    }
    kinds.push(LaneKind::Query)?;
    Ok(kinds)
}

// Appends the positions of the lines of a lane.
fn push_lane(positions: &mut Vec<Position>, lane: u32, lines: &[Line]) -> Result<(), AllocError>
    requires { length lines.now ≤ MAX_ROWS }
    ensures { OnOk result (positions.new.items ≡ positions.old.items ++ lane_positions lane 0 lines.now) }
{
    for place in 0..lines.len() {
        let line = &lines[place];
        positions.push(Position {
            t: line.t,
            lane,
            place: place as u32,
        })?;
    }
    Ok(())
}

// The positions of all lines, lane by lane.
fn all_positions(alloc: Global, lanes: &Lanes) -> Result<Vec<Position>, AllocError>
    requires { update_count lanes.now ≤ MAX_ROWS }
    ensures { IfOk result (λ positions. positions.items ≡ all_positions 0 (numbered_lanes lanes.now)) }
{
    let mut positions = Vec::new(alloc);
    for lane in 0..read_lane(lanes) {
        push_lane(&mut positions, lane, lane_of(lanes, lane))?;
    }
    Ok(positions)
}

/// The positions of all lines, in merged order.
pub fn update_positions(alloc: Global, lanes: &Lanes) -> Result<Vec<Position>, AllocError>
    requires { update_count lanes.now ≤ MAX_ROWS }
    ensures updates { IfOk result (λ positions. AreUpdatePositions lanes.now positions.items) }
    ensures counted { IfOk result (λ positions. length positions.items ≡ update_count lanes.now) }
{
    let mut positions = all_positions(alloc, lanes)?;
    positions.sort()?;
    Ok(positions)
}

// Appends the positions of the reads to those of the updates, which they go with.
fn push_reads(
    positions: &mut Vec<Position>,
    lane: u32,
    reads: &[Instance],
) -> Result<(), AllocError>
    requires reads { All (λ i. (1 ≤ i.at) × (i.at ≤ length positions.old.items)) reads.now }
    requires few { length reads.now ≤ MAX_READS }
    ensures { OnOk result
        (positions.new.items ≡ positions.old.items ++ read_positions positions.old.items lane 0 reads.now) }
{
    for place in 0..reads.len() {
        let instance = reads[place];
        let with = positions[instance.at as usize - 1];
        positions.push(Position {
            t: with.t,
            lane,
            place: place as u32,
        })?;
    }
    Ok(())
}

/// The positions of all operations, in the order of their numbers: those of these updates and reads.
pub fn operation_positions(
    alloc: Global,
    lanes: &Lanes,
    updates: &[Position],
    reads: &[Instance],
) -> Result<Vec<Position>, AllocError>
    requires updates { AreUpdatePositions lanes.now updates.now }
    requires reads { All (λ i. (1 ≤ i.at) × (i.at ≤ length updates.now)) reads.now }
    requires few { length reads.now ≤ MAX_READS }
    ensures positions { IfOk result (λ positions. AreAllPositions lanes.now updates.now reads.now positions.items) }
    ensures counted { IfOk result (λ positions. length positions.items ≡ length updates.now + length reads.now) }
{
    let mut positions = Vec::from_slice(alloc, updates)?;
    push_reads(&mut positions, read_lane(lanes), reads)?;
    positions.sort()?;
    Ok(positions)
}
