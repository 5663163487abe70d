//! The times of a plan: what is started and finished, and the completion times that follow.

ghost use Rattle.std.specs.Prelude.{◌≡◌, ℕ, ◌<◌, ◌≤◌, ◌==◌, ◌&&◌, IfOk, List, length, replicate, slice_index_or, slice_set, false, true};
ghost use Rattle.std.specs.BTreeSet.{BTreeSet as Set};
ghost use Rattle.snb_history.specs.Schedule.{is_dependency, step_of};
ghost use Rattle.snb_history.specs.Completion.{least_t, time_before, time_left, time_left_in};
ghost use Rattle.snb_completion.specs.Progress.{flag, nothing_started, IsNextInLane, IsOpen};

use snb_history::Schedule;
use snb_schema::MAX_TIME;
use std::alloc::{AllocError, Global};
use std::collections::BTreeSet;
use std::marker::Model;

/// The dependencies of a lane that are still waited for, as sets of their numbers.
struct LaneTimes {
    unstarted: BTreeSet<u32>,
    unfinished: BTreeSet<u32>,
}

impl Drop for LaneTimes {
    fn drop(self) {
        let LaneTimes {
            unstarted: _,
            unfinished: _,
        } = self;
    }
}

/// What of a plan is started and finished, and its completion times.
///
/// It is seen as its schedule and, for each operation, whether it is started and whether it is
/// finished.
pub struct Times {
    schedule: Schedule,
    started: Vec<bool>,
    finished: Vec<bool>,
    /// The dependencies of the plan that aren't finished.
    unfinished: BTreeSet<u32>,
    lanes: Vec<LaneTimes>,
}

impl Drop for Times {
    fn drop(self) {
        let Times {
            schedule: _,
            started: _,
            finished: _,
            unfinished: _,
            lanes: _,
        } = self;
    }
}

impl Model for Times {
    ghost use Rattle.snb_completion.specs.Progress.{Progress};

    ghost Value = { Progress };

    ghost use Rattle.snb_completion.specs.Waiting.{AreTimesOf};

    ghost view = { λ t. record { schedule = t.schedule; started = t.started.items; finished = t.finished.items } };

    ghost invariant = { λ t.
        AreTimesOf (record { schedule = t.schedule; started = t.started.items; finished = t.finished.items })
        t.unfinished t.lanes.items };
}

ghost use Rattle.snb_completion.specs.Waiting.{has, HasThose, IsLaneOf};

/// This many flags, none of them set.
fn none_set(alloc: Global, count: usize) -> Result<Vec<bool>, AllocError>
    ensures { IfOk result (λ flags. flags.items ≡ replicate count false) }
{
    vec![in alloc; false; count]
}

/// The dependencies of the plan.
fn dependencies(alloc: Global, schedule: &Schedule) -> Result<BTreeSet<u32>, AllocError>
    ensures { IfOk result (λ set. HasThose set (length schedule.now.steps) (is_dependency schedule.now)) }
{
    let steps = schedule.steps();
    let mut set = BTreeSet::new(alloc);
    for op in 0..steps.len() {
        if steps[op].dependency {
            set.insert(op as u32)?;
        }
    }
    Ok(set)
}

/// The dependencies of a lane.
fn dependencies_in(
    alloc: Global,
    schedule: &Schedule,
    lane: u32,
) -> Result<BTreeSet<u32>, AllocError>
    requires { lane < length schedule.now.kinds }
    ensures { IfOk result (λ set. HasThose set (length schedule.now.steps)
        (λ k. ((step_of schedule.now k).lane == lane) && is_dependency schedule.now k)) }
{
    let steps = schedule.steps();
    let numbers = schedule.lane(lane);
    let mut set = BTreeSet::new(alloc);
    for op in numbers {
        if steps[*op as usize].dependency {
            set.insert(*op)?;
        }
    }
    Ok(set)
}

/// What is waited for in each lane, where nothing is started.
fn lanes_of(alloc: Global, schedule: &Schedule) -> Result<Vec<LaneTimes>, AllocError>
    ensures counted { IfOk result (λ lanes. length lanes.items ≡ length schedule.now.kinds) }
    ensures each { IfOk result
        (λ lanes. (l : ℕ) (d : LaneTimes) → l < length lanes.items
        → IsLaneOf (nothing_started schedule.now) l (slice_index_or lanes.items l d)) }
{
    let count = schedule.kinds().len();
    let mut lanes = Vec::with_capacity(alloc, count)?;
    for lane in 0..count {
        lanes.push(LaneTimes {
            unstarted: dependencies_in(alloc, schedule, lane as u32)?,
            unfinished: dependencies_in(alloc, schedule, lane as u32)?,
        })?;
    }
    Ok(lanes)
}

/// The least t of the operations of a set, or one past the greatest time where it is empty.
fn least_t(schedule: &Schedule, set: &BTreeSet<u32>) -> u64
    requires { (k : ℕ) → has set.now k ≡ true → k < length schedule.now.steps }
    ensures value { result ≡ least_t schedule.now (has set.now) }
    ensures small { result ≤ 253402300800000 }
{
    match set.first() {
        None => MAX_TIME + 1,
        Some(op) => schedule.steps()[*op as usize].t,
    }
}

/// That time less one.
fn time_before(schedule: &Schedule, set: &BTreeSet<u32>) -> i64
    requires { (k : ℕ) → has set.now k ≡ true → k < length schedule.now.steps }
    ensures { result ≡ time_before schedule.now (has set.now) }
{
    least_t(schedule, set) as i64 - 1
}

impl Times {
    /// The times of a plan of which nothing is started.
    ///
    /// No later call takes memory.
    pub fn new(alloc: Global, schedule: &Schedule) -> Result<Times, AllocError>
        ensures { IfOk result (λ t. t ≡ nothing_started schedule.now) }
    {
        let count = schedule.steps().len();
        Ok(Times {
            schedule: schedule.try_copy()?,
            started: none_set(alloc, count)?,
            finished: none_set(alloc, count)?,
            unfinished: dependencies(alloc, schedule)?,
            lanes: lanes_of(alloc, schedule)?,
        })
    }

    /// The schedule.
    pub fn schedule(&self) -> &Schedule
        ensures { result.now ≡ self.now.schedule }
    {
        &self.schedule
    }

    /// Whether each operation is started.
    pub fn started(&self) -> &[bool]
        ensures { result.now ≡ self.now.started }
    {
        &self.started
    }

    /// Whether each operation is finished.
    pub fn finished(&self) -> &[bool]
        ensures { result.now ≡ self.now.finished }
    {
        &self.finished
    }

    /// Starts an operation, the first unstarted one of its lane.
    pub fn start(&mut self, op: u32)
        requires { IsNextInLane self.old op }
        ensures { self.new ≡ record self.old { started = slice_set self.old.started op true } }
    {
        let lane = self.schedule.steps()[op as usize].lane;
        self.started[op as usize] = true;
        let times = &mut self.lanes[lane as usize];
        times.unstarted.remove(&op);
    }

    /// Finishes an operation, which is started and unfinished.
    pub fn finish(&mut self, op: u32)
        requires { IsOpen self.old op }
        ensures { self.new ≡ record self.old { finished = slice_set self.old.finished op true } }
    {
        let lane = self.schedule.steps()[op as usize].lane;
        self.finished[op as usize] = true;
        self.unfinished.remove(&op);
        let times = &mut self.lanes[lane as usize];
        times.unfinished.remove(&op);
    }

    /// The local initiated time of a lane: the least t of its dependencies that aren't started,
    /// less one, or the greatest time where there is none. In milliseconds since 1970-01-01 UTC.
    pub fn local_initiated(&self, lane: u32) -> i64
        ensures { result ≡ time_left_in self.now.schedule (flag self.now.started) lane }
    {
        if lane as usize >= self.lanes.len() {
            return MAX_TIME as i64;
        }
        let times = &self.lanes[lane as usize];
        time_before(&self.schedule, &times.unstarted)
    }

    /// The local completion time of a lane: the least t of its dependencies that aren't finished,
    /// less one, or the greatest time where there is none. In milliseconds since 1970-01-01 UTC.
    pub fn local_completion(&self, lane: u32) -> i64
        ensures { result ≡ time_left_in self.now.schedule (flag self.now.finished) lane }
    {
        if lane as usize >= self.lanes.len() {
            return MAX_TIME as i64;
        }
        let times = &self.lanes[lane as usize];
        time_before(&self.schedule, &times.unfinished)
    }

    /// The completion time of the plan, the watermark of Erling et al., SIGMOD 2015: the least t of
    /// its dependencies that aren't finished, less one, or the greatest time where there is none.
    /// In milliseconds since 1970-01-01 UTC; -1 where that least t is 0.
    pub fn global_completion(&self) -> i64
        ensures { result ≡ time_left self.now.schedule (flag self.now.finished) }
    {
        time_before(&self.schedule, &self.unfinished)
    }
}
