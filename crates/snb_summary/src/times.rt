//! When the operations of a run start and finish, and what is measured of them.

ghost use Rattle.std.specs.Prelude.{◌≡◌, ℕ, ◌<◌, ◌≤◌, All, IfOk, None, filter_map, if◌then◌else◌, length, nat_le, nat_lt, replicate, slice_index, slice_index_or};
ghost use Rattle.std.specs.List.Sorted.{IsNonDecreasingBy};
ghost use Rattle.snb_history.specs.Schedule.{no_step};
ghost use Rattle.snb_summary.specs.Hearing.{AreFor, AreLasts, AreTimes, IsOf, finishes_after, later, moments_in, starts_after};
ghost use Rattle.snb_summary.specs.Latencies.{OpMoments, cleared_at, if_kind, moments_of, numbers, value_of, measured_values};

use crate::kind::{OpKind, What};
use snb_history::{Event, Schedule, Step};
use std::alloc::{AllocError, Global};

/// The moments of each operation's Start and Finish, or 0.
pub struct Heard {
    pub starts: Vec<u64>,
    pub finishes: Vec<u64>,
}

impl Drop for Heard {
    fn drop(self) {
        let Heard {
            starts: _,
            finishes: _,
        } = self;
    }
}

impl Heard {
    // Hears one more event.
    fn hear(&mut self, event: Event)
        requires starts { IsOf (length self.old.starts.items) event }
        requires finishes { IsOf (length self.old.finishes.items) event }
        ensures starts { self.new.starts.items ≡ starts_after event self.old.starts.items }
        ensures finishes { self.new.finishes.items ≡ finishes_after event self.old.finishes.items }
    {
        match event {
            Event::Start { op, worker: _, at } => self.starts[op as usize] = at,
            Event::Finish {
                op,
                worker: _,
                at,
                front: _,
            } => self.finishes[op as usize] = at,
            Event::Halt { worker: _ } => {}
        }
    }
}

// So many zeros.
fn zeros(alloc: Global, count: usize) -> Result<Vec<u64>, AllocError>
    ensures { IfOk result (λ numbers. numbers.items ≡ replicate count 0) }
{
    vec![in alloc; 0; count]
}

// The moments of so many operations.
fn hear_all(alloc: Global, count: usize, events: &[Event]) -> Result<Heard, AllocError>
    requires { All (IsOf count) events.now }
    ensures sized { IfOk result (AreFor count) }
    ensures moments { IfOk result (λ heard. moments_in heard ≡ moments_of events.now) }
{
    let starts = zeros(alloc, count)?;
    let finishes = zeros(alloc, count)?;
    let mut heard = Heard { starts, finishes };
    for event in events {
        heard.hear(*event);
    }
    Ok(heard)
}

// The later of the two moments.
fn later(last: Option<u64>, at: u64) -> Option<u64>
    ensures { result ≡ later last at }
{
    match last {
        None => Some(at),
        Some(most) => Some(most.max(at)),
    }
}

// The last Finish of dependencies, with one more step.
fn last_with(last: Option<u64>, step: Step, at: u64) -> Option<u64>
    ensures { result ≡ (if step.dependency then later last at else last) }
{
    if step.dependency {
        later(last, at)
    } else {
        last
    }
}

// The last Finish of the dependencies below each number.
fn lasts_of(
    alloc: Global,
    schedule: &Schedule,
    finishes: &[u64],
) -> Result<Vec<Option<u64>>, AllocError>
    requires { length finishes.now ≡ length schedule.now.steps }
    ensures { IfOk result (λ lasts. AreLasts schedule.now (slice_index finishes.now) lasts.items) }
{
    let steps = schedule.steps();
    let mut lasts = Vec::with_capacity(alloc, steps.len() + 1)?;
    let mut last = None;
    lasts.push(last)?;
    for op in 0..steps.len() {
        last = last_with(last, steps[op], finishes[op]);
        lasts.push(last)?;
    }
    Ok(lasts)
}

// How many of the steps, which are in the order of their t, have a t of at most this.
fn count_to(steps: &[Step], t: u64) -> usize
    requires { IsNonDecreasingBy (λ (step : Step). step.t) steps.now }
    ensures within { result ≤ length steps.now }
    ensures each { (k : ℕ) → k < length steps.now → nat_le (slice_index_or steps.now k no_step).t t ≡ nat_lt k result }
{
    steps.partition_point(|step| step.t <= t)
}

/// What is known of the operations of a run: their moments, and the last Finish of the dependencies
/// below each number.
pub struct Times {
    pub heard: Heard,
    pub lasts: Vec<Option<u64>>,
}

impl Drop for Times {
    fn drop(self) {
        let Times { heard: _, lasts: _ } = self;
    }
}

impl Times {
    /// The times of a history, whose events are those of the schedule's operations.
    pub fn of(alloc: Global, schedule: &Schedule, events: &[Event]) -> Result<Times, AllocError>
        requires { All (IsOf (length schedule.now.steps)) events.now }
        ensures times { IfOk result (AreTimes schedule.now) }
        ensures moments { IfOk result (λ times. moments_in times.heard ≡ moments_of events.now) }
    {
        let heard = hear_all(alloc, schedule.steps().len(), events)?;
        let lasts = lasts_of(alloc, schedule, &heard.finishes)?;
        Ok(Times { heard, lasts })
    }

    // The last Finish of what the operation waits for.
    fn cleared_at(&self, schedule: &Schedule, op: usize) -> Option<u64>
        requires within { op < length schedule.now.steps }
        requires times { AreTimes schedule.now self.now }
        ensures { result ≡ cleared_at schedule.now (moments_in self.now.heard) op }
    {
        let steps = schedule.steps();
        let step = steps[op];
        if step.dependent {
            return self.lasts[count_to(steps, step.t_d)];
        }
        None
    }

    // What is measured of the operation.
    fn value(&self, schedule: &Schedule, what: What, op: usize) -> Option<u64>
        requires within { op < length schedule.now.steps }
        requires times { AreTimes schedule.now self.now }
        ensures { result ≡ value_of what schedule.now (moments_in self.now.heard) op }
    {
        let start = self.heard.starts[op];
        match what {
            What::Latency => Some(self.heard.finishes[op].saturating_sub(start)),
            What::Lateness => Some(start.saturating_sub(schedule.steps()[op].due)),
            What::Slack => match self.cleared_at(schedule, op) {
                None => None,
                Some(at) => Some(start.saturating_sub(at)),
            },
        }
    }

    // The same, where the operation is of the kind.
    fn value_of_kind(
        &self,
        schedule: &Schedule,
        found: Option<OpKind>,
        kind: OpKind,
        what: What,
        op: usize,
    ) -> Option<u64>
        requires within { op < length schedule.now.steps }
        requires times { AreTimes schedule.now self.now }
        ensures { result ≡ if_kind kind found (value_of what schedule.now (moments_in self.now.heard) op) }
    {
        match found {
            None => None,
            Some(found) => {
                if found == kind {
                    self.value(schedule, what, op)
                } else {
                    None
                }
            }
        }
    }

    /// The values of a measure over the operations of a kind, in the order of their numbers.
    pub fn values(
        &self,
        alloc: Global,
        schedule: &Schedule,
        kinds: &[Option<OpKind>],
        kind: OpKind,
        what: What,
    ) -> Result<Vec<u64>, AllocError>
        requires each { length kinds.now ≡ length schedule.now.steps }
        requires times { AreTimes schedule.now self.now }
        ensures { IfOk result
            (λ v. v.items ≡ measured_values
            (record { kinds = kinds.now; schedule = schedule.now; moments = moments_in self.now.heard }) kind what) }
    {
        let mut values = Vec::new(alloc);
        for op in 0..kinds.len() {
            let told = self.value_of_kind(schedule, kinds[op], kind, what, op);
            if let Some(value) = told {
                values.push(value)?;
            }
        }
        Ok(values)
    }
}
