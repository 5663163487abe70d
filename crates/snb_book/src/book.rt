//! The book of a run: its schedule, its count of workers, and what has happened.

ghost use Rattle.std.specs.Prelude.{◌≡◌, ℕ, pos, ◌+◌, ◌<◌, ◌≤◌, ◌<ℤ◌, ◌≤ℤ◌, ◌^◌, ◌↔◌, ◌++◌, ◌∷◌, []};
ghost use Rattle.std.specs.Prelude.{IfOk, IfSome, IsTrue, MatchOption, length, replicate, slice_index_or, vec_capacity, None, Some, true, false};
ghost use Rattle.std.specs.List.{list_all};
ghost use Rattle.snb_history.specs.Schedule.{IsOperation, IsPlanned, is_dependency, step_of};
ghost use Rattle.snb_history.specs.History.{finished, hand, holder, last, moment, started};
ghost use Rattle.snb_history.specs.Completion.{completion, is_awaited, least_t};
ghost use Rattle.snb_history.specs.Rules.{Fits, IsCleared, IsComplete, IsFront, IsLegal, LaneIsFinished, MayAct};
ghost use Rattle.snb_book.specs.Kept.{IsAdding, IsInHand, moment_after};
ghost use Rattle.snb_book.specs.Claims.{IsAdmitted, IsClaim, IsDueHead, IsFirst, IsPlanHead, IsUnderWay};
ghost use Rattle.snb_book.specs.Claims.{HoldsBefore, IfGo, IfNotGo, IsIdle, MovesOn, NeedsEarlier};
ghost use Rattle.snb_book.specs.Heads.{HasNoPredecessor, IsAtPlace, IsFree, IsLate, IsPassed, IsPredecessor, IsWithin};
ghost use Rattle.snb_book.specs.Heads.{AreFirsts, AreFirstsBelow, TellsFirst, earlier_where};
ghost use Rattle.snb_book.specs.Heads.{AreSet, HasNobody, IsFirstUnset, IsWith};
ghost use Rattle.snb_book.specs.Asked.{AllFinished, IsFirstUnfinished, IsFirstUnstarted, IsWaitedFor};

use crate::claim::{Claim, Ticket};
use snb_completion::Times;
use snb_history::{Event, LaneKind, Schedule, Step};
use snb_schema::{MAX_AT, MAX_TIME, MAX_WORKERS};
use std::alloc::{AllocError, Global};
use std::marker::Model;

/// What has happened in a run, and who has what in hand.
///
/// It is seen as its schedule, its count of workers and its history, which is legal at all times.
pub struct Book {
    /// The schedule, what of it is started and finished, and its completion time.
    times: Times,
    workers: u32,
    events: Vec<Event>,
    /// For each lane the place of its head.
    heads: Vec<u32>,
    /// For each worker what it has in hand.
    held: Vec<Option<u32>>,
    /// The moment of the last Start or Finish, or 0.
    last: u64,
    /// Whether somebody has halted.
    halted: bool,
}

impl Drop for Book {
    fn drop(self) {
        let Book {
            times: _,
            workers: _,
            events: _,
            heads: _,
            held: _,
            last: _,
            halted: _,
        } = self;
    }
}

impl Model for Book {
    ghost use Rattle.std.specs.Prelude.{vec_capacity};
    ghost use Rattle.snb_book.specs.Kept.{Kept};

    ghost Value = { Kept };

    ghost use Rattle.snb_book.specs.Book.{IsSoundBook, IsTold};

    ghost view = { λ b. record { schedule = b.times.schedule; workers = b.workers; history = b.events.items } };

    ghost invariant = { λ b.
        IsSoundBook (record { schedule = b.times.schedule; workers = b.workers; history = b.events.items })
        (vec_capacity b.events)
        × IsTold (record { schedule = b.times.schedule; workers = b.workers; history = b.events.items })
        b.times b.heads.items b.held.items b.last b.halted };
}

/// The first head, the first that isn't busy, and the first that may start.
#[derive(Clone, Copy)]
struct Firsts {
    all: Option<u32>,
    free: Option<u32>,
    ready: Option<u32>,
}

/// The operation at a place of a lane, where the lane is that long.
fn at_place(schedule: &Schedule, lane: u32, place: u32) -> Option<u32>
    requires { lane < length schedule.now.kinds }
    ensures { MatchOption result (IsPassed schedule.now lane place) (λ op. IsAtPlace schedule.now lane place op) }
{
    let numbers = schedule.lane(lane);
    if (place as usize) < numbers.len() {
        Some(numbers[place as usize])
    } else {
        None
    }
}

/// The operation before one of a forum lane.
fn predecessor(schedule: &Schedule, op: u32) -> Option<u32>
    requires { IsOperation schedule.now op }
    ensures { MatchOption result (HasNoPredecessor schedule.now op) (λ j. IsPredecessor schedule.now op j) }
{
    let step = schedule.steps()[op as usize];
    if step.place == 0 {
        return None;
    }
    match schedule.kinds()[step.lane as usize] {
        LaneKind::Forum => at_place(schedule, step.lane, step.place - 1),
        LaneKind::Person => None,
        LaneKind::Query => None,
    }
}

/// Whether what an operation of a forum lane comes after is finished. `finished` has a flag for
/// each operation.
fn is_free(schedule: &Schedule, finished: &[bool], op: u32) -> bool
    requires op { IsOperation schedule.now op }
    requires each { length finished.now ≡ length schedule.now.steps }
    ensures { IsTrue result ↔ IsFree schedule.now finished.now op }
{
    match predecessor(schedule, op) {
        None => true,
        Some(before) => finished[before as usize],
    }
}

/// Whether an operation is free, and the dependency rule lets it start where `least` is the least
/// `t` of a dependency that isn't finished.
fn is_ready(schedule: &Schedule, least: u64, op: u32, free: bool) -> bool
    requires { IsOperation schedule.now op }
    ensures { IsTrue result ↔ ((free ≡ true) × IsWithin schedule.now least op) }
{
    let step = schedule.steps()[op as usize];
    free && (!step.dependent || step.t_d < least)
}

/// The one that is due earlier, of `first` and an operation that counts; `first`, where there is
/// one, if both are due at once.
fn earlier(steps: &[Step], first: Option<u32>, op: u32, counts: bool) -> Option<u32>
    requires first { IfSome first (λ k. k < length steps.now) }
    requires op { op < length steps.now }
    ensures { result ≡ earlier_where steps.now first op counts }
{
    if !counts {
        return first;
    }
    match first {
        None => Some(op),
        Some(best) => {
            if steps[op as usize].due < steps[best as usize].due {
                Some(op)
            } else {
                Some(best)
            }
        }
    }
}

/// The firsts of one lane more. `heads` has each lane's place, `finished` a flag for each operation.
fn with_lane(
    schedule: &Schedule,
    heads: &[u32],
    finished: &[bool],
    least: u64,
    lane: u32,
    firsts: Firsts,
) -> Firsts
    requires lane { lane < length heads.now }
    requires heads { length heads.now ≡ length schedule.now.kinds }
    requires finished { length finished.now ≡ length schedule.now.steps }
    requires firsts { AreFirstsBelow schedule.now heads.now finished.now least lane firsts }
    ensures { AreFirstsBelow schedule.now heads.now finished.now least (lane + 1) result }
{
    match at_place(schedule, lane, heads[lane as usize]) {
        None => firsts,
        Some(op) => {
            let steps = schedule.steps();
            let free = is_free(schedule, finished, op);
            let ready = is_ready(schedule, least, op, free);
            Firsts {
                all: earlier(steps, firsts.all, op, true),
                free: earlier(steps, firsts.free, op, free),
                ready: earlier(steps, firsts.ready, op, ready),
            }
        }
    }
}

/// The firsts of all lanes.
fn first_heads(schedule: &Schedule, heads: &[u32], finished: &[bool], least: u64) -> Firsts
    requires heads { length heads.now ≡ length schedule.now.kinds }
    requires finished { length finished.now ≡ length schedule.now.steps }
    ensures { AreFirstsBelow schedule.now heads.now finished.now least (length schedule.now.kinds) result }
{
    let mut firsts = Firsts {
        all: None,
        free: None,
        ready: None,
    };
    for lane in 0..schedule.kinds().len() {
        firsts = with_lane(schedule, heads, finished, least, lane as u32, firsts);
    }
    firsts
}

/// An operation, if there is one and it is due.
fn due_by(schedule: &Schedule, first: Option<u32>, at: u64) -> Option<u32>
    requires { IfSome first (λ op. IsOperation schedule.now op) }
    ensures { MatchOption result (IsLate schedule.now at first)
        (λ op. (first ≡ Some op) × ((step_of schedule.now op).due ≤ at)) }
{
    match first {
        None => None,
        Some(op) => {
            if schedule.steps()[op as usize].due <= at {
                Some(op)
            } else {
                None
            }
        }
    }
}

/// The worker that has an operation in hand, if one has. `held` has what each worker has in hand.
fn hand_with(held: &[Option<u32>], op: u32) -> Option<u32>
    requires { length held.now ≤ MAX_WORKERS }
    ensures { MatchOption result (HasNobody held.now op) (λ worker. IsWith held.now op worker) }
{
    for worker in 0..held.len() {
        if held[worker] == Some(op) {
            return Some(worker as u32);
        }
    }
    None
}

/// The worker that has an operation in hand. `held` has what each worker has in hand.
fn holder_of(held: &[Option<u32>], op: u32) -> u32
    requires few { length held.now ≤ MAX_WORKERS }
    requires held { (w : ℕ) × (w < length held.now) × (slice_index_or held.now w None ≡ Some op) }
    ensures within { result < length held.now }
    ensures holds { slice_index_or held.now result None ≡ Some op }
{
    match hand_with(held, op) {
        Some(worker) => worker,
        None => unreachable!(),
    }
}

/// The number of the first flag that isn't set, if there is one.
fn first_unset(flags: &[bool]) -> Option<u32>
    requires { length flags.now < 2 ^ 32 }
    ensures { MatchOption result (AreSet flags.now (length flags.now)) (λ k. IsFirstUnset flags.now k) }
{
    for number in 0..flags.len() {
        if !flags[number] {
            return Some(number as u32);
        }
    }
    None
}

/// Appends an event to a log that has room for it.
fn append(events: &mut Vec<Event>, event: Event)
    requires { length events.old.items < vec_capacity events.old }
    ensures items { events.new.items ≡ events.old.items ++ event ∷ [] }
    ensures capacity { vec_capacity events.old ≤ vec_capacity events.new }
{
    let _ = events.push(event);
}

/// The first place of each of this many lanes.
fn first_places(alloc: Global, lanes: usize) -> Result<Vec<u32>, AllocError>
    ensures { IfOk result (λ places. places.items ≡ replicate lanes 0) }
{
    vec![in alloc; 0; lanes]
}

/// The hands of this many workers, all of them empty.
fn empty_hands(alloc: Global, workers: usize) -> Result<Vec<Option<u32>>, AllocError>
    ensures { IfOk result (λ hands. hands.items ≡ replicate workers None) }
{
    vec![in alloc; None; workers]
}

/// Whether each flag is set.
fn all_set(flags: &[bool]) -> bool
    ensures { result ≡ list_all (λ flag. flag) flags.now }
{
    flags.iter().all(|flag| *flag)
}

impl Book {
    /// A book of 1 to 8 workers and a schedule, in which nothing has happened.
    ///
    /// It has room for all that can happen, so that no later call takes memory.
    pub fn make(alloc: Global, schedule: &Schedule, workers: u32) -> Result<Book, AllocError>
        requires some { 1 ≤ workers }
        requires few { workers ≤ MAX_WORKERS }
        ensures { IfOk result (λ b. b ≡ record { schedule = schedule.now; workers = workers; history = [] }) }
    {
        let ops = schedule.steps().len();
        let lanes = schedule.kinds().len();
        Ok(Book {
            times: Times::new(alloc, schedule)?,
            workers,
            events: Vec::with_capacity(alloc, 2 * ops + workers as usize)?,
            heads: first_places(alloc, lanes)?,
            held: empty_hands(alloc, workers as usize)?,
            last: 0,
            halted: false,
        })
    }

    /// The schedule.
    pub fn schedule(&self) -> &Schedule
        ensures { result.now ≡ self.now.schedule }
    {
        self.times.schedule()
    }

    /// The count of workers, whose numbers begin at 0.
    pub fn workers(&self) -> u32
        ensures { result ≡ self.now.workers }
    {
        self.workers
    }

    /// What has happened: a legal history, in which each event fits those before it.
    pub fn events(&self) -> &[Event]
        ensures value { result.now ≡ self.now.history }
        ensures legal { IsLegal self.now.schedule self.now.workers self.now.history }
        ensures short { length self.now.history < 2 ^ 32 }
    {
        &self.events
    }

    /// What has happened, without the book. Takes no memory.
    pub fn into_events(self) -> Vec<Event>
        ensures { result.items ≡ self.history }
    {
        let Book {
            times: _,
            workers: _,
            events,
            heads: _,
            held: _,
            last: _,
            halted: _,
        } = self;
        events
    }

    /// Whether every operation is finished and nobody has halted.
    pub fn is_complete(&self) -> bool
        ensures { IsTrue result ↔ IsComplete self.now.schedule self.now.history }
    {
        !self.halted && all_set(self.times.finished())
    }

    /// The completion time, the watermark of the dependency rule of Erling et al., "The LDBC Social
    /// Network Benchmark: Interactive Workload", SIGMOD 2015: every dependency of a date and time
    /// up to it is finished.
    ///
    /// In milliseconds since 1970-01-01 UTC: one below the least `t` of a dependency that isn't
    /// finished, or `MAX_TIME` where each one is; -1 where that least `t` is 0.
    pub fn completion(&self) -> i64
        ensures value { result ≡ completion self.now.schedule self.now.history }
        ensures waits { (k : ℕ) → is_dependency self.now.schedule k ≡ true → finished self.now.history k ≡ false
            → result <ℤ pos (step_of self.now.schedule k).t }
    {
        self.times.global_completion()
    }

    /// The moment of an event that happens where the clock shows `now`.
    fn moment(&self, now: u64) -> u64
        ensures value { result ≡ moment_after self.now.history now }
        ensures bounded { result ≤ MAX_AT }
        ensures planned { IsPlanned self.now.schedule }
        ensures legal { IsLegal self.now.schedule self.now.workers self.now.history }
        ensures short { length self.now.history < 2 ^ 32 }
    {
        self.last.max(now.min(MAX_AT))
    }

    /// The least `t` of a dependency that isn't finished, or one past the greatest date and time.
    fn least(&self) -> u64
        ensures { result ≡ least_t self.now.schedule (is_awaited self.now.schedule self.now.history) }
    {
        (self.completion() + 1) as u64
    }

    /// The first heads.
    fn firsts(&self) -> Firsts
        ensures { AreFirsts self.now.schedule self.now.history result }
    {
        let schedule = self.times.schedule();
        first_heads(schedule, &self.heads, self.times.finished(), self.least())
    }

    /// The worker that has in hand what a head waits for.
    fn holder_before(&self, op: u32) -> u32
        requires head { IsPlanHead self.now.schedule self.now.history op }
        requires busy { ¬ LaneIsFinished self.now.schedule self.now.history op }
        ensures { HoldsBefore self.now.schedule self.now.history op result }
    {
        match predecessor(self.schedule(), op) {
            Some(before) => holder_of(&self.held, before),
            None => unreachable!(),
        }
    }

    /// What a claim answers where some head is due and none that is due may start. `first` is the
    /// first head, `free` the first that isn't busy.
    fn answer_waiting(&self, worker: u32, at: u64, first: u32, free: Option<u32>) -> Claim
        requires idle { IsUnderWay self.now.schedule self.now.history worker }
        requires first { IsFirst self.now.schedule (IsDueHead self.now.schedule self.now.history at) first }
        requires none { (j : ℕ) → IsDueHead self.now.schedule self.now.history at j
            → ¬ IsAdmitted self.now.schedule self.now.history j }
        requires free { TellsFirst self.now.schedule
            (λ j. IsPlanHead self.now.schedule self.now.history j × LaneIsFinished self.now.schedule self.now.history j)
            free }
        ensures { IsClaim self.now.schedule self.now.history worker at result }
    {
        match due_by(self.schedule(), free, at) {
            Some(op) => Claim::Blocked {
                op,
                needs: self.schedule().steps()[op as usize].t_d,
                completion: self.completion(),
            },
            None => Claim::Busy {
                op: first,
                holder: self.holder_before(first),
            },
        }
    }

    /// What a claim answers to a worker with nothing in hand, where `first` is the first head.
    fn answer_idle(&self, worker: u32, at: u64, first: u32, firsts: Firsts) -> Claim
        requires idle { IsUnderWay self.now.schedule self.now.history worker }
        requires first { IsFirst self.now.schedule (IsPlanHead self.now.schedule self.now.history) first }
        requires firsts { AreFirsts self.now.schedule self.now.history firsts }
        ensures { IsClaim self.now.schedule self.now.history worker at result }
    {
        let due = self.schedule().steps()[first as usize].due;
        if at < due {
            return Claim::NotDue { until: due };
        }
        match due_by(self.schedule(), firsts.ready, at) {
            Some(op) => {
                let start = self.events.len() as u32;
                Claim::Go {
                    ticket: Ticket { op, worker, start },
                }
            }
            None => self.answer_waiting(worker, at, first, firsts.free),
        }
    }

    /// What a claim answers at a moment.
    fn answer(&self, worker: u32, at: u64) -> Claim
        requires { worker < self.now.workers }
        ensures { IsClaim self.now.schedule self.now.history worker at result }
    {
        if self.halted {
            return Claim::Halted;
        }
        let firsts = self.firsts();
        match firsts.all {
            None => Claim::AllStarted,
            Some(first) => match self.held[worker as usize] {
                Some(op) => Claim::Busy { op, holder: worker },
                None => self.answer_idle(worker, at, first, firsts),
            },
        }
    }

    /// Appends a Start, for which there is room.
    fn start(&mut self, op: u32, worker: u32, at: u64)
        requires fits { Fits self.old.schedule self.old.workers self.old.history (Event.Start op worker at) }
        requires bounded { at ≤ MAX_AT }
        ensures appended { self.new ≡ record self.old { history = self.old.history ++ Event.Start op worker at ∷ [] } }
        ensures adds { IsAdding worker self.old self.new }
    {
        let step = self.times.schedule().steps()[op as usize];
        append(&mut self.events, Event::Start { op, worker, at });
        self.times.start(op);
        self.heads[step.lane as usize] = step.place + 1;
        self.held[worker as usize] = Some(op);
        self.last = at;
    }

    /// Appends a Finish, for which there is room.
    fn finish_at(&mut self, op: u32, worker: u32, at: u64, front: u32)
        requires fits { Fits self.old.schedule self.old.workers self.old.history (Event.Finish op worker at front) }
        requires bounded { at ≤ MAX_AT }
        ensures appended { self.new ≡ record self.old
            { history = self.old.history ++ Event.Finish op worker at front ∷ [] } }
        ensures adds { IsAdding worker self.old self.new }
    {
        let event = Event::Finish {
            op,
            worker,
            at,
            front,
        };
        append(&mut self.events, event);
        self.times.finish(op);
        self.held[worker as usize] = None;
        self.last = at;
    }

    /// Gives the worker, one of the book's, an operation, if one may start, where the clock shows
    /// `now`.
    ///
    /// Only a `Go` changes the book, by one Start. Where each dependent needs only what lies before
    /// it, nobody has an operation in hand, nobody has halted and not all is started, the answer is
    /// `Go` or `NotDue`, and it is `Go` where some head is due. Each lane is looked at once.
    pub fn claim(&mut self, worker: u32, now: u64) -> Claim
        requires { worker < self.old.workers }
        ensures answer { IsClaim self.old.schedule self.old.history worker (moment_after self.old.history now) result }
        ensures go { IfGo result (λ ticket. self.new ≡ record self.old {
          history = self.old.history ++ Event.Start ticket.op worker (moment_after self.old.history now) ∷ [];
        }) }
        ensures fits { IfGo result (λ ticket. Fits self.old.schedule self.old.workers self.old.history
            (Event.Start ticket.op worker (moment_after self.old.history now))) }
        ensures held { IfGo result (λ ticket. IsInHand self.new.history ticket) }
        ensures acts { IfGo result (λ ticket. MayAct self.new.workers self.new.history ticket.worker) }
        ensures same { IfNotGo result (self.new ≡ self.old) }
        ensures moves { NeedsEarlier self.old.schedule → IsIdle self.old.schedule self.old.history →
            MovesOn self.old.schedule self.old.history (moment_after self.old.history now) result }
        ensures rises { completion self.old.schedule self.old.history ≤ℤ completion self.new.schedule self.new.history }
        ensures adds { IsAdding worker self.old self.new }
    {
        let at = self.moment(now);
        match self.answer(worker, at) {
            Claim::Go { ticket } => {
                self.start(ticket.op, worker, at);
                Claim::Go { ticket }
            }
            other => other,
        }
    }

    /// Appends the Finish of a ticket's operation, where the clock shows `now`. The ticket's worker
    /// has that operation in hand, by that Start, and hasn't halted.
    ///
    /// `front` is the number of events whose inserts a read saw: greater than the number of its Start,
    /// and at most the length of the history. It is 0 of an insert. That another worker has halted
    /// doesn't hinder it.
    pub fn finish(&mut self, ticket: Ticket, now: u64, front: u32)
        requires held { IsInHand self.old.history ticket }
        requires acts { MayAct self.old.workers self.old.history ticket.worker }
        requires front { IsFront self.old.schedule self.old.history ticket.op front }
        ensures appended { self.new ≡ record self.old {
          history = self.old.history
              ++ Event.Finish ticket.op ticket.worker (moment_after self.old.history now) front ∷ [];
        } }
        ensures fits { Fits self.old.schedule self.old.workers self.old.history
            (Event.Finish ticket.op ticket.worker (moment_after self.old.history now) front) }
        ensures rises { completion self.old.schedule self.old.history ≤ℤ completion self.new.schedule self.new.history }
        ensures adds { IsAdding ticket.worker self.old self.new }
    {
        let at = self.moment(now);
        self.finish_at(ticket.op, ticket.worker, at, front);
    }

    /// Appends the Halt of a worker, which is one of the book's and hasn't halted before: from then
    /// on every claim, of whichever worker, is `Halted`.
    pub fn halt(&mut self, worker: u32)
        requires { MayAct self.old.workers self.old.history worker }
        ensures appended { self.new ≡ record self.old { history = self.old.history ++ Event.Halt worker ∷ [] } }
        ensures fits { Fits self.old.schedule self.old.workers self.old.history (Event.Halt worker) }
        ensures rises { completion self.old.schedule self.old.history ≤ℤ completion self.new.schedule self.new.history }
        ensures adds { IsAdding worker self.old self.new }
    {
        append(&mut self.events, Event::Halt { worker });
        self.halted = true;
    }

    /// Appends an event that may follow what has happened, at a moment of at most `MAX_AT`. Takes no
    /// memory.
    pub fn push(&mut self, event: Event)
        requires fits { Fits self.old.schedule self.old.workers self.old.history event }
        requires bounded { moment event ≤ MAX_AT }
        ensures { self.new ≡ record self.old { history = self.old.history ++ event ∷ [] } }
    {
        match event {
            Event::Start { op, worker, at } => self.start(op, worker, at),
            Event::Finish {
                op,
                worker,
                at,
                front,
            } => self.finish_at(op, worker, at, front),
            Event::Halt { worker } => self.halt(worker),
        }
    }

    /// An operation of the plan.
    pub fn step(&self, op: u32) -> Step
        requires { IsOperation self.now.schedule op }
        ensures value { result ≡ step_of self.now.schedule op }
        ensures planned { IsPlanned self.now.schedule }
        ensures due { result.due ≤ MAX_AT }
        ensures needs { result.t_d ≤ MAX_TIME }
    {
        self.schedule().steps()[op as usize]
    }

    /// The moment of the last Start or Finish, or 0.
    pub fn last(&self) -> u64
        ensures value { result ≡ last self.now.history }
        ensures bounded { result ≤ MAX_AT }
    {
        self.last
    }

    /// What a worker of the book has in hand.
    pub fn hand(&self, worker: u32) -> Option<u32>
        requires { worker < self.now.workers }
        ensures { result ≡ hand self.now.history worker }
    {
        self.held[worker as usize]
    }

    /// The worker that has an operation in hand. Each worker is looked at once.
    pub fn holder(&self, op: u32) -> Option<u32>
        ensures { result ≡ holder self.now.history op }
    {
        hand_with(&self.held, op)
    }

    /// The first unstarted operation of an operation's lane, which is the operation itself exactly
    /// where it is a head; `None` where it is started.
    pub fn first_unstarted(&self, op: u32) -> Option<u32>
        requires { IsOperation self.now.schedule op }
        ensures { MatchOption result (started self.now.history op ≡ true)
            (λ first. IsFirstUnstarted self.now.schedule self.now.history op first) }
    {
        if self.times.started()[op as usize] {
            return None;
        }
        let lane = self.step(op).lane;
        at_place(self.schedule(), lane, self.heads[lane as usize])
    }

    /// The first unfinished operation before a head of a forum lane, for which the head waits; `None`
    /// where the head isn't busy.
    pub fn first_unfinished_before(&self, op: u32) -> Option<u32>
        requires { IsPlanHead self.now.schedule self.now.history op }
        ensures { MatchOption result (LaneIsFinished self.now.schedule self.now.history op)
            (λ first. IsWaitedFor self.now.schedule self.now.history op first) }
    {
        match predecessor(self.schedule(), op) {
            None => None,
            Some(before) => {
                if self.times.finished()[before as usize] {
                    None
                } else {
                    Some(before)
                }
            }
        }
    }

    /// Whether the dependency rule lets an operation start: it is no dependent, or all up to its
    /// `t_d` is finished.
    pub fn is_cleared(&self, op: u32) -> bool
        requires { IsOperation self.now.schedule op }
        ensures { IsTrue result ↔ IsCleared self.now.schedule self.now.history op }
    {
        let step = self.step(op);
        !step.dependent || step.t_d < self.least()
    }

    /// The least operation that isn't finished, if there is one.
    pub fn first_unfinished(&self) -> Option<u32>
        ensures { MatchOption result (AllFinished self.now.schedule self.now.history)
            (λ op. IsFirstUnfinished self.now.schedule self.now.history op) }
    {
        first_unset(self.times.finished())
    }
}
