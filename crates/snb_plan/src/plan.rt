//! Plans: what is done in a run, in order.

ghost use Rattle.std.specs.Prelude.{◌≡◌, ◌<◌, ◌≤◌, All, IfOk, OnOk, count_by, length, map};
ghost use Rattle.snb_schema.specs.declared.limits.TheConstants.{MAX_AT, MAX_READS, MAX_ROWS, MAX_TIME};
ghost use Rattle.snb_schema.specs.declared.refusal.Counted.TheVariants.{Reads};
ghost use Rattle.snb_schema.specs.declared.refusal.Refusal.TheVariants.{TooMany};
ghost use Rattle.snb_schema.specs.Awaiting.{adds_awaited, waits};
ghost use Rattle.snb_schema.specs.Faults.{OnBad};
ghost use Rattle.snb_schema.specs.LineLanes.{update_count};
ghost use Rattle.snb_schema.specs.QueryLists.{HaveParameters};
ghost use Rattle.snb_schema.specs.StreamLines.{AreOfStreams};
ghost use Rattle.snb_plan.specs.Closed.{IsClosed, IsFirstWrong};
ghost use Rattle.snb_plan.specs.Plans.{queries_in, schedule_of, updates_in, IsOfStreams, IsPlan};
ghost use Rattle.snb_plan.specs.Tasks.{IsSource, IsTask, OnRefused};
ghost use Rattle.snb_plan.specs.Merging.{kinds_of, read_count};
ghost use Rattle.snb_plan.specs.Positions.{read_step, position_step, position_t, update_step};
ghost use Rattle.snb_plan.specs.Scheduled.{updates_at, AreLines, IsScheduled, IsThere, StepsRise};

use crate::added::Added;
use crate::closed::check_update;
use crate::instances::{Instance, read_count, reads_of};
use crate::positions::{
    Position, file_of, kinds_of, lane_of, operation_positions, read_lane, update_positions,
};
use snb_history::{LaneKind, Schedule, Step};
use snb_ratio::Ratio;
use snb_schema::{
    Counted, Fault, FileId, Frequencies, Held, Lanes, Line, Lists, MAX_READS, Op, PlanFault, Query,
    Refusal,
};
use std::alloc::{AllocError, Global};
use std::marker::Model;

/// Whether the insert is a dependency: it adds a node that dependents may wait for, by the dependency
/// rule of Erling et al., SIGMOD 2015.
pub fn adds_awaited(op: &Op) -> bool
    ensures { result ≡ adds_awaited op.now }
{
    match op {
        Op::AddPerson { .. } | Op::AddForum { .. } => true,
        _ => false,
    }
}

/// Whether the insert is a dependent: it waits for what is added up to its t_d.
pub fn waits(op: &Op) -> bool
    ensures { result ≡ waits op.now }
{
    match op {
        Op::AddPerson { .. } => false,
        _ => true,
    }
}

/// What an operation does.
#[derive(Clone, Copy)]
pub enum Task<'a> {
    /// The insert of a line.
    Insert { line: &'a Line },
    /// A read.
    Ask { query: &'a Query },
}

/// The line that an update comes from, counted from 1 in its file.
#[derive(Clone, Copy)]
pub struct Source {
    pub file: FileId,
    pub line: u32,
}

// The step of a line.
fn update_step(ratio: Ratio, t0: u64, position: Position, line: &Line) -> Step
    requires order { t0 ≤ line.now.t }
    requires last { line.now.t ≤ MAX_TIME }
    ensures step { result ≡ update_step ratio t0 position line.now }
    ensures due { result.due ≤ MAX_AT }
{
    Step {
        lane: position.lane,
        place: position.place,
        t: line.t,
        t_d: line.t_d,
        due: ratio.due(t0, line.t),
        dependency: adds_awaited(&line.op),
        dependent: waits(&line.op),
        query: false,
    }
}

// The step of a read.
fn read_step(ratio: Ratio, t0: u64, position: Position) -> Step
    requires order { t0 ≤ position.t }
    requires last { position.t ≤ MAX_TIME }
    ensures step { result ≡ read_step ratio t0 position }
    ensures due { result.due ≤ MAX_AT }
{
    Step {
        lane: position.lane,
        place: position.place,
        t: position.t,
        t_d: 0,
        due: ratio.due(t0, position.t),
        dependency: false,
        dependent: false,
        query: true,
    }
}

// The step at a position.
fn position_step(lanes: &Lanes, ratio: Ratio, t0: u64, position: Position) -> Step
    requires there { IsThere lanes.now position }
    requires order { t0 ≤ position.t }
    requires last { position.t ≤ MAX_TIME }
    ensures step { result ≡ position_step lanes.now ratio t0 position }
    ensures due { result.due ≤ MAX_AT }
{
    if position.lane == read_lane(lanes) {
        return read_step(ratio, t0, position);
    }
    let line = &lane_of(lanes, position.lane)[position.place as usize];
    update_step(ratio, t0, position, line)
}

// The t of the first position, or 0 where there is none.
fn position_t(positions: &[Position]) -> u64
    ensures { result ≡ position_t positions.now }
{
    if positions.is_empty() {
        0
    } else {
        positions[0].t
    }
}

// The steps at the positions.
fn position_steps(
    alloc: Global,
    lanes: &Lanes,
    ratio: Ratio,
    positions: &[Position],
) -> Result<Vec<Step>, AllocError>
    requires there { All (IsThere lanes.now) positions.now }
    requires order { All (λ s. position_t positions.now ≤ s.t) positions.now }
    requires last { All (λ s. s.t ≤ MAX_TIME) positions.now }
    ensures steps { IfOk result
        (λ steps. steps.items ≡ map (position_step lanes.now ratio (position_t positions.now)) positions.now) }
    ensures due { IfOk result (λ steps. All (λ step. step.due ≤ MAX_AT) steps.items) }
{
    let t0 = position_t(positions);
    let mut steps = Vec::with_capacity(alloc, positions.len())?;
    for position in positions {
        steps.push(position_step(lanes, ratio, t0, *position))?;
    }
    Ok(steps)
}

// The reads of a plan, and its schedule.
fn schedule_of(
    alloc: Global,
    lanes: &Lanes,
    frequencies: &Frequencies,
    ratio: Ratio,
) -> Result<(Vec<Instance>, Schedule), PlanFault>
    requires few { update_count lanes.now ≤ MAX_ROWS }
    requires streams { AreOfStreams lanes.now }
    ensures planned { IfOk result (λ pair. IsScheduled lanes.now frequencies.now ratio pair.0.items pair.1) }
    ensures reads { OnOk result (read_count frequencies.now (update_count lanes.now) ≤ MAX_READS) }
    ensures refused { OnRefused result
        (λ r. (r ≡ TooMany Reads) × (MAX_READS < read_count frequencies.now (update_count lanes.now))) }
{
    let updates = update_positions(alloc, lanes)?;
    let count = updates.len() as u32;
    if read_count(frequencies, count) > u64::from(MAX_READS) {
        let refusal = Refusal::TooMany {
            what: Counted::Reads,
        };
        return Err(PlanFault::Refused { refusal });
    }
    let reads = reads_of(alloc, frequencies, count)?;
    let positions = operation_positions(alloc, lanes, &updates, &reads)?;
    let steps = position_steps(alloc, lanes, ratio, &positions)?;
    let kinds = kinds_of(alloc, lanes)?;
    let schedule = Schedule::make(alloc, &kinds, steps)?;
    Ok((reads, schedule))
}

// How many of the steps are those of reads.
fn read_steps(steps: &[Step]) -> u64
    ensures { result ≡ count_by (λ step. step.query) steps.now }
{
    let mut reads: u64 = 0;
    for step in steps {
        if step.query {
            reads += 1;
        }
    }
    reads
}

/// The plan of update streams and parameters.
///
/// A contract sees the kinds of its lanes and its operations in the order of their numbers, each with
/// what the scheduler sees of it, what it does, and of an update the line that it comes from.
pub struct Plan {
    lanes: Lanes,
    lists: Lists,
    reads: Vec<Instance>,
    schedule: Schedule,
}

impl Drop for Plan {
    fn drop(self) {
        let Plan {
            lanes: _,
            lists: _,
            reads: _,
            schedule: _,
        } = self;
    }
}

impl Model for Plan {
    ghost use Rattle.std.specs.Prelude.{map};
    ghost use Rattle.snb_plan.specs.Plans.{Plan as AnyPlan, IsOfStreams};
    ghost use Rattle.snb_plan.specs.Positions.{operation_of};
    ghost use Rattle.snb_plan.specs.Scheduled.{AreKept};

    ghost Value = { AnyPlan };

    ghost view = { λ p. record {
      kinds = p.schedule.kinds;
      operations = map (operation_of p.lanes p.lists p.reads.items) p.schedule.steps;
    } };

    ghost invariant = { λ p. AreKept p.lanes p.lists p.reads.items p.schedule.steps
        × IsOfStreams (record {
          kinds = p.schedule.kinds;
          operations = map (operation_of p.lanes p.lists p.reads.items) p.schedule.steps;
        }) };
}

impl Plan {
    /// The plan of these lanes of lines, lists of parameters and frequencies, under the ratio.
    ///
    /// All lanes together have at most `MAX_ROWS` lines. Some text has each line; the lanes of persons
    /// have the inserts 1 and 8 alone and the others the inserts 2 to 7 alone, and t never falls in a
    /// lane. Each query with a frequency has a parameter. Refused exactly where there are more than
    /// `MAX_READS` reads. On a fault the lanes and lists are dropped.
    pub fn make(
        alloc: Global,
        lanes: Lanes,
        lists: Lists,
        frequencies: Frequencies,
        ratio: Ratio,
    ) -> Result<Plan, PlanFault>
        requires few { update_count lanes ≤ MAX_ROWS }
        requires streams { AreOfStreams lanes }
        requires parameters { HaveParameters lists frequencies }
        ensures plan { IfOk result (IsPlan lanes lists frequencies ratio) }
        ensures reads { OnOk result (read_count frequencies (update_count lanes) ≤ MAX_READS) }
        ensures refused { OnRefused result
            (λ r. (r ≡ TooMany Reads) × (MAX_READS < read_count frequencies (update_count lanes))) }
    {
        let (reads, schedule) = schedule_of(alloc, &lanes, &frequencies, ratio)?;
        Ok(Plan {
            lanes,
            lists,
            reads,
            schedule,
        })
    }

    /// The plan is one of lanes of streams.
    pub fn known(&self)
        ensures { IsOfStreams self.now }
    {
        let _ = &self.lanes;
    }

    /// How many updates it has.
    pub fn updates(&self) -> u64
        ensures { result ≡ length (updates_in self.now) }
    {
        let steps = self.schedule.steps();
        steps.len() as u64 - read_steps(steps)
    }

    /// How many reads it has.
    pub fn reads(&self) -> u64
        ensures { result ≡ length (queries_in self.now) }
    {
        read_steps(self.schedule.steps())
    }

    /// What the scheduler sees of it. Takes no memory.
    pub fn schedule(&self) -> &Schedule
        ensures { result.now ≡ schedule_of self.now }
    {
        &self.schedule
    }

    /// What an operation does. The operation is in the plan. Takes no memory.
    pub fn task(&self, op: u32) -> Task<'_>
        requires { op < length self.now.operations }
        ensures { IsTask self.now op result }
    {
        let step = self.schedule.steps()[op as usize];
        if step.query {
            let instance = self.reads[step.place as usize];
            let list = self.lists.of(instance.query);
            let at = (instance.turn as usize - 1) % list.len();
            return Task::Ask { query: &list[at] };
        }
        Task::Insert {
            line: &lane_of(&self.lanes, step.lane)[step.place as usize],
        }
    }

    /// The line that an update comes from; none for a read. The operation is in the plan. Takes no
    /// memory.
    pub fn source(&self, op: u32) -> Option<Source>
        requires { op < length self.now.operations }
        ensures { IsSource self.now op result }
    {
        let step = self.schedule.steps()[op as usize];
        if step.query {
            return None;
        }
        let line = &lane_of(&self.lanes, step.lane)[step.place as usize];
        Some(Source {
            file: file_of(&self.lanes, step.lane),
            line: line.number,
        })
    }

    /// Refuses the first update in merged order that waits and whose t_d isn't below its t, that takes
    /// a key which is held or is taken by an update before it, or that refers to a node which is
    /// neither held nor added in time: a person or a forum by an update whose t is at most this t_d, a
    /// forum or a message by an update before it in its lane. `held` tells the keys of the dataset.
    pub fn closed<H: Held>(&self, alloc: Global, held: &H) -> Result<(), PlanFault>
        ensures ok { OnOk result (IsClosed (H.holds held.now) (updates_in self.now)) }
        ensures bad { OnRefused result (IsFirstWrong (H.holds held.now) (updates_in self.now)) }
    {
        match check_steps(alloc, held, &self.lanes, self.schedule.steps()) {
            Ok(()) => Ok(()),
            Err(Fault::Bad { refusal }) => Err(PlanFault::Refused { refusal }),
            Err(Fault::Memory) => Err(PlanFault::Memory),
        }
    }
}

// Refuses the first update among the steps that isn't closed.
fn check_steps<H: Held>(alloc: Global, held: &H, lanes: &Lanes, steps: &[Step]) -> Result<(), Fault>
    requires kept { AreLines lanes.now steps.now }
    requires rises { StepsRise steps.now }
    ensures ok { OnOk result (IsClosed (H.holds held.now) (updates_at lanes.now steps.now)) }
    ensures bad { OnBad result (IsFirstWrong (H.holds held.now) (updates_at lanes.now steps.now)) }
{
    let mut added = Added::new(alloc);
    for step in steps {
        if !step.query {
            let line = &lane_of(lanes, step.lane)[step.place as usize];
            let file = file_of(lanes, step.lane);
            check_update(held, &mut added, step.lane, file, line)?;
        }
    }
    Ok(())
}
