//! Schedules: the steps of a plan in the order of their numbers, and its lanes.

ghost use Rattle.std.specs.Prelude.{◌≡◌, ◌<◌, ◌≤◌, IfOk, length};
ghost use Rattle.snb_history.specs.Schedule.{IsLane, IsPlanned, max_lanes};
ghost use Rattle.snb_history.specs.Lanes.{AreLanesOf};

use crate::step::{LaneKind, Step};
use std::alloc::{AllocError, Global};
use std::marker::Model;

/// The operations of a plan in the order of their numbers, and its lanes.
///
/// It is seen as its steps and the kinds of its lanes. Every schedule is as `IsPlanned` says.
pub struct Schedule {
    steps: Vec<Step>,
    kinds: Vec<LaneKind>,
    lanes: Vec<Vec<u32>>,
}

impl Drop for Schedule {
    fn drop(self) {
        let Schedule {
            steps: _,
            kinds: _,
            lanes: _,
        } = self;
    }
}

impl Model for Schedule {
    ghost use Rattle.snb_history.specs.Schedule.{Schedule as Timetable};

    ghost Value = { Timetable };

    ghost use Rattle.snb_history.specs.Lanes.{AreLanesOf};

    ghost view = { λ s. record { steps = s.steps.items; kinds = s.kinds.items } };

    ghost invariant = { λ s. AreLanesOf (record { steps = s.steps.items; kinds = s.kinds.items }) s.lanes.items };
}

/// The numbers of the lane's steps, in order.
fn lane_of(
    alloc: Global,
    steps: &[Step],
    kinds: &[LaneKind],
    lane: u32,
) -> Result<Vec<u32>, AllocError>
    requires { IsPlanned (record { steps = steps.now; kinds = kinds.now }) }
    ensures { IfOk result (λ v. IsLane (record { steps = steps.now; kinds = kinds.now }) lane v.items) }
{
    let mut numbers = Vec::new(alloc);
    for op in 0..steps.len() {
        if steps[op].lane == lane {
            numbers.push(op as u32)?;
        }
    }
    Ok(numbers)
}

/// The numbers of each lane's steps, lane by lane.
fn lanes_of(alloc: Global, steps: &[Step], kinds: &[LaneKind]) -> Result<Vec<Vec<u32>>, AllocError>
    requires { IsPlanned (record { steps = steps.now; kinds = kinds.now }) }
    ensures { IfOk result (λ v. AreLanesOf (record { steps = steps.now; kinds = kinds.now }) v.items) }
{
    let mut lanes = Vec::with_capacity(alloc, kinds.len())?;
    for lane in 0..kinds.len() {
        let numbers = lane_of(alloc, steps, kinds, lane as u32)?;
        lanes.push(numbers)?;
    }
    Ok(lanes)
}

impl Schedule {
    /// The schedule of these steps, in lanes of these kinds.
    ///
    /// There are at most two times `MAX_LANES` lanes and one more, and at most `MAX_ROWS` and
    /// `MAX_READS` steps together. The lane of each step is there. The steps are in the order of t, of
    /// lane and of place, and no step is due earlier than one before it. The place of a step is the
    /// number of the steps before it in its lane. No t and no t_d is above `MAX_TIME`, and no due time
    /// above `MAX_AT`. The reads are the steps of the lanes of kind `Query`.
    pub fn make(alloc: Global, kinds: &[LaneKind], steps: Vec<Step>) -> Result<Schedule, AllocError>
        requires { IsPlanned (record { steps = steps.items; kinds = kinds.now }) }
        ensures { IfOk result (λ s. s ≡ record { steps = steps.items; kinds = kinds.now }) }
    {
        let lanes = lanes_of(alloc, &steps, kinds)?;
        let kinds = Vec::from_slice(alloc, kinds)?;
        Ok(Schedule {
            steps,
            kinds,
            lanes,
        })
    }

    /// The steps, in the order of their numbers.
    pub fn steps(&self) -> &[Step]
        ensures value { result.now ≡ self.now.steps }
        ensures planned { IsPlanned self.now }
    {
        &self.steps
    }

    /// The kind of each lane.
    pub fn kinds(&self) -> &[LaneKind]
        ensures value { result.now ≡ self.now.kinds }
        ensures few { length result.now ≤ max_lanes }
    {
        &self.kinds
    }

    /// The numbers of a lane's steps, in order: the step at a place of this list has that place. The
    /// lane is one of the schedule's.
    pub fn lane(&self, lane: u32) -> &[u32]
        requires { lane < length self.now.kinds }
        ensures { IsLane self.now lane result.now }
    {
        &self.lanes[lane as usize]
    }

    /// An equal schedule.
    pub fn try_copy(&self) -> Result<Schedule, AllocError>
        ensures { IfOk result (λ s. s ≡ self.now) }
    {
        let alloc = *self.steps.allocator();
        let steps = Vec::from_slice(alloc, &self.steps)?;
        Schedule::make(alloc, &self.kinds, steps)
    }
}
