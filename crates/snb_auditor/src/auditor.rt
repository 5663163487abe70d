//! The auditor, which is told a history event by event.

ghost use Rattle.std.specs.Prelude.{◌≡◌, ℕ, ◌<◌, ◌≤◌, ◌^◌, ◌++◌, ◌∷◌, [], All, IfErr, IfNone, IfOk, IfSome, List, MatchOption, None, OnOk, Some, false, length, replicate};
ghost use Rattle.std.specs.List.{position_or_len};
ghost use Rattle.snb_history.specs.Schedule.{IsOperation, step_of};
ghost use Rattle.snb_history.specs.History.{hand, last, moment, starts};
ghost use Rattle.snb_history.specs.Rules.{Fits, IsCleared, IsFront, LeadsLane, IsLegal, LaneIsFinished, MayAct, V1, V2, V3, V4, V5, V6, V7, V8, V9};
ghost use Rattle.snb_history.specs.Violation.{or_none, told, told_of_worker};
ghost use Rattle.snb_book.specs.Claims.{IsPlanHead};
ghost use Rattle.snb_auditor.specs.Verdicts.{IsFirstHalt, IsVerdict, IsViolation, NobodyHalted, is_on_time, on_time};
ghost use Rattle.snb_auditor.specs.Audits.{HasHeard, IsRefused};
ghost use Rattle.snb_auditor.specs.Judging.{AreBegun, AreStopped, Finds, IsStartWithin, Judges};

use crate::verdict::{Verdict, Violation};
use snb_book::Book;
use snb_history::{Event, Schedule};
use snb_schema::{MAX_AT, MAX_WORKERS};
use std::alloc::{AllocError, Global};
use std::marker::Model;

/// The two values of a rule that doesn't hold.
#[derive(Clone, Copy)]
struct Values {
    needs: i64,
    found: i64,
}

/// An auditor of one history, event by event.
///
/// It is seen as its schedule, its count of workers, the events that fit, which are legal at all
/// times, and the violation that it keeps, if any.
pub struct Auditor {
    /// The events that fit, and what follows from them.
    book: Book,
    /// Of each worker whether it has halted.
    stopped: Vec<bool>,
    /// Of each worker the number of the Start of what it has in hand.
    begun: Vec<u32>,
    kept: Option<Violation>,
}

impl Drop for Auditor {
    fn drop(self) {
        let Auditor {
            book: _,
            stopped: _,
            begun: _,
            kept: _,
        } = self;
    }
}

impl Model for Auditor {
    ghost use Rattle.snb_auditor.specs.Audits.{Audit};

    ghost Value = { Audit };

    ghost use Rattle.snb_auditor.specs.Judging.{AreBegun, AreStopped};

    ghost view = { λ a. record {
      schedule = a.book.schedule;
      workers = a.book.workers;
      fitted = a.book.history;
      kept = a.kept;
    } };

    ghost invariant = { λ a. AreStopped a.book a.stopped.items × AreBegun a.book a.begun.items };
}

/// The worker's number, where it is one of the book's and hasn't halted: V1 of a Halt. `stopped` has
/// of each worker whether it has halted.
fn judge_worker(book: &Book, stopped: &[bool], worker: u32) -> Option<Values>
    requires { AreStopped book.now stopped.now }
    ensures { Finds (MayAct book.now.workers book.now.history worker) (told_of_worker book.now.workers worker) result }
{
    let workers = book.workers();
    let found = worker as i64;
    if worker >= workers {
        return Some(Values {
            needs: workers as i64,
            found,
        });
    }
    if stopped[worker as usize] {
        return Some(Values { needs: 0, found });
    }
    None
}

/// V1 of a Start or a Finish: the operation is one of the plan, and the worker may act.
fn judge_acting(book: &Book, stopped: &[bool], op: u32, worker: u32) -> Option<Values>
    requires { AreStopped book.now stopped.now }
    ensures { Finds (IsOperation book.now.schedule op × MayAct book.now.workers book.now.history worker)
        (told book.now.schedule book.now.workers book.now.history op worker 0 0 V1) result }
{
    let count = book.schedule().steps().len();
    if op as usize >= count {
        return Some(Values {
            needs: count as i64,
            found: op as i64,
        });
    }
    judge_worker(book, stopped, worker)
}

/// V2: the operation is the first of its lane that isn't started.
fn judge_head(book: &Book, op: u32) -> Option<Values>
    requires { IsOperation book.now.schedule op }
    ensures { Finds (LeadsLane book.now.schedule book.now.history op)
        (told book.now.schedule book.now.workers book.now.history op 0 0 0 V2) result }
{
    match book.first_unstarted(op) {
        Some(first) if first == op => None,
        Some(first) => Some(Values {
            needs: first as i64,
            found: op as i64,
        }),
        None => Some(Values {
            needs: -1,
            found: op as i64,
        }),
    }
}

/// V3: in a forum lane, all before the operation is finished.
fn judge_turn(book: &Book, op: u32) -> Option<Values>
    requires { IsPlanHead book.now.schedule book.now.history op }
    ensures { Finds (LaneIsFinished book.now.schedule book.now.history op)
        (told book.now.schedule book.now.workers book.now.history op 0 0 0 V3) result }
{
    match book.first_unfinished_before(op) {
        None => None,
        Some(first) => Some(Values {
            needs: first as i64,
            found: op as i64,
        }),
    }
}

/// V4: the operation is due.
fn judge_due(book: &Book, op: u32, at: u64) -> Option<Values>
    requires op { IsOperation book.now.schedule op }
    requires at { at ≤ MAX_AT }
    ensures { Finds ((step_of book.now.schedule op).due ≤ at)
        (told book.now.schedule book.now.workers book.now.history op 0 at 0 V4) result }
{
    let due = book.step(op).due;
    if due <= at {
        return None;
    }
    Some(Values {
        needs: due as i64,
        found: at as i64,
    })
}

/// V5: what the operation depends on is finished.
fn judge_cleared(book: &Book, op: u32) -> Option<Values>
    requires { IsOperation book.now.schedule op }
    ensures { Finds (IsCleared book.now.schedule book.now.history op)
        (told book.now.schedule book.now.workers book.now.history op 0 0 0 V5) result }
{
    if book.is_cleared(op) {
        return None;
    }
    Some(Values {
        needs: book.step(op).t_d as i64,
        found: book.completion(),
    })
}

/// V6: the worker has nothing in hand.
fn judge_idle(book: &Book, worker: u32) -> Option<Values>
    requires { worker < book.now.workers }
    ensures { Finds (hand book.now.history worker ≡ None)
        (told book.now.schedule book.now.workers book.now.history 0 worker 0 0 V6) result }
{
    match book.hand(worker) {
        None => None,
        Some(op) => Some(Values {
            needs: -1,
            found: op as i64,
        }),
    }
}

/// A number, or -1 for none.
fn or_none(number: Option<u32>) -> i64
    ensures { result ≡ or_none number }
{
    match number {
        None => -1,
        Some(number) => number as i64,
    }
}

/// V7: the worker has the operation in hand.
fn judge_hand(book: &Book, op: u32, worker: u32) -> Option<Values>
    requires { worker < book.now.workers }
    ensures { Finds (hand book.now.history worker ≡ Some op)
        (told book.now.schedule book.now.workers book.now.history op worker 0 0 V7) result }
{
    if book.hand(worker) == Some(op) {
        return None;
    }
    Some(Values {
        needs: or_none(book.holder(op)),
        found: worker as i64,
    })
}

/// V8: the front of an insert is 0; that of a read is greater than the number of its Start, which is
/// `start`, and at most the count of events.
fn judge_front(book: &Book, start: u32, op: u32, front: u32) -> Option<Values>
    requires op { IsOperation book.now.schedule op }
    requires start { start ≡ position_or_len (starts op) book.now.history }
    ensures { Finds (IsFront book.now.schedule book.now.history op front)
        (told book.now.schedule book.now.workers book.now.history op 0 0 front V8) result }
{
    let count = book.events().len();
    let found = front as i64;
    if !book.step(op).query {
        if front == 0 {
            return None;
        }
        return Some(Values { needs: 0, found });
    }
    if front <= start {
        return Some(Values {
            needs: start as i64 + 1,
            found,
        });
    }
    if front as usize > count {
        return Some(Values {
            needs: count as i64,
            found,
        });
    }
    None
}

/// V9: the moment isn't below the last one.
fn judge_moment(book: &Book, at: u64) -> Option<Values>
    requires { at ≤ MAX_AT }
    ensures { Finds (last book.now.history ≤ at)
        (told book.now.schedule book.now.workers book.now.history 0 0 at 0 V9) result }
{
    let last = book.last();
    if last <= at {
        return None;
    }
    Some(Values {
        needs: last as i64,
        found: at as i64,
    })
}

/// The violation of a rule by the event that comes next.
fn violation(book: &Book, rule: u32, values: Values) -> Option<Violation>
    ensures { result ≡ Some
        (record { event = length book.now.history; rule = rule; needs = values.needs; found = values.found }) }
{
    Some(Violation {
        event: book.events().len() as u32,
        rule,
        needs: values.needs,
        found: values.found,
    })
}

/// Whether a Start fits, by the rules V1 to V6 and V9 in their order.
fn judge_start(book: &Book, stopped: &[bool], op: u32, worker: u32, at: u64) -> Option<Violation>
    requires stopped { AreStopped book.now stopped.now }
    requires at { at ≤ MAX_AT }
    ensures { Judges book.now (Event.Start op worker at) result }
{
    if let Some(values) = judge_acting(book, stopped, op, worker) {
        return violation(book, 1, values);
    }
    if let Some(values) = judge_head(book, op) {
        return violation(book, 2, values);
    }
    if let Some(values) = judge_turn(book, op) {
        return violation(book, 3, values);
    }
    if let Some(values) = judge_due(book, op, at) {
        return violation(book, 4, values);
    }
    if let Some(values) = judge_cleared(book, op) {
        return violation(book, 5, values);
    }
    if let Some(values) = judge_idle(book, worker) {
        return violation(book, 6, values);
    }
    if let Some(values) = judge_moment(book, at) {
        return violation(book, 9, values);
    }
    None
}

/// Whether a Finish fits, by the rules V1 and V7 to V9 in their order. `begun` has of each worker the
/// number of the Start of what it has in hand.
fn judge_finish(
    book: &Book,
    stopped: &[bool],
    begun: &[u32],
    op: u32,
    worker: u32,
    at: u64,
    front: u32,
) -> Option<Violation>
    requires stopped { AreStopped book.now stopped.now }
    requires begun { AreBegun book.now begun.now }
    requires at { at ≤ MAX_AT }
    ensures { Judges book.now (Event.Finish op worker at front) result }
{
    if let Some(values) = judge_acting(book, stopped, op, worker) {
        return violation(book, 1, values);
    }
    if let Some(values) = judge_hand(book, op, worker) {
        return violation(book, 7, values);
    }
    if let Some(values) = judge_front(book, begun[worker as usize], op, front) {
        return violation(book, 8, values);
    }
    if let Some(values) = judge_moment(book, at) {
        return violation(book, 9, values);
    }
    None
}

/// Whether a Halt fits, by the rule V1.
fn judge_halt(book: &Book, stopped: &[bool], worker: u32) -> Option<Violation>
    requires { AreStopped book.now stopped.now }
    ensures { Judges book.now (Event.Halt worker) result }
{
    match judge_worker(book, stopped, worker) {
        None => None,
        Some(values) => violation(book, 1, values),
    }
}

/// Whether an event fits, and else its violation.
fn judge(book: &Book, stopped: &[bool], begun: &[u32], event: Event) -> Option<Violation>
    requires stopped { AreStopped book.now stopped.now }
    requires begun { AreBegun book.now begun.now }
    requires at { moment event ≤ MAX_AT }
    ensures { Judges book.now event result }
{
    match event {
        Event::Start { op, worker, at } => judge_start(book, stopped, op, worker, at),
        Event::Finish {
            op,
            worker,
            at,
            front,
        } => judge_finish(book, stopped, begun, op, worker, at, front),
        Event::Halt { worker } => judge_halt(book, stopped, worker),
    }
}

/// The worker of the first Halt, if there is one.
fn first_halt(events: &[Event]) -> Option<u32>
    ensures { MatchOption result (NobodyHalted events.now) (λ worker. IsFirstHalt events.now worker) }
{
    for event in events {
        if let Event::Halt { worker } = *event {
            return Some(worker);
        }
    }
    None
}

/// Whether an event is a Start that comes at most 1000 milliseconds after its operation is due.
fn is_on_time(book: &Book, event: Event) -> bool
    requires { IsStartWithin book.now.schedule event }
    ensures { result ≡ is_on_time book.now.schedule event }
{
    match event {
        Event::Start { op, worker: _, at } => at <= book.step(op).due + 1000,
        _ => false,
    }
}

/// How many events are Starts that come in time.
fn count_on_time(book: &Book, events: &[Event]) -> u64
    requires { All (IsStartWithin book.now.schedule) events.now }
    ensures value { result ≡ on_time book.now.schedule events.now }
    ensures few { result ≤ length events.now }
{
    let mut count: u64 = 0;
    for event in events {
        if is_on_time(book, *event) {
            count += 1;
        }
    }
    count
}

/// The verdict on a book's history, of which every event fits those before it.
fn verdict_of(book: &Book, events: &[Event]) -> Verdict
    requires events { events.now ≡ book.now.history }
    requires legal { IsLegal book.now.schedule book.now.workers events.now }
    requires short { length events.now < 2 ^ 32 }
    ensures { IsVerdict book.now.schedule book.now.workers events.now result }
{
    if let Some(worker) = first_halt(events) {
        return Verdict::Halted { worker };
    }
    if let Some(op) = book.first_unfinished() {
        return Verdict::Incomplete { op };
    }
    let on_time = count_on_time(book, events);
    let all = book.schedule().steps().len() as u64;
    if 100 * on_time < 95 * all {
        Verdict::TooLate { on_time, all }
    } else {
        Verdict::Accepted { on_time, all }
    }
}

/// A flag of each of this many workers, none of them set.
fn none_stopped(alloc: Global, workers: usize) -> Result<Vec<bool>, AllocError>
    ensures { IfOk result (λ flags. flags.items ≡ replicate workers false) }
{
    vec![in alloc; false; workers]
}

/// A number of each of this many workers.
fn none_begun(alloc: Global, workers: usize) -> Result<Vec<u32>, AllocError>
    ensures { IfOk result (λ numbers. numbers.items ≡ replicate workers 0) }
{
    vec![in alloc; 0; workers]
}

impl Auditor {
    /// An auditor of 1 to 8 workers' histories of a schedule's operations, which has been told
    /// nothing.
    ///
    /// It copies the schedule and has room for all events that can fit, so that no later call takes
    /// memory.
    pub fn new(alloc: Global, schedule: &Schedule, workers: u32) -> Result<Auditor, AllocError>
        requires some { 1 ≤ workers }
        requires few { workers ≤ MAX_WORKERS }
        ensures { IfOk result
            (λ a. a ≡ record { schedule = schedule.now; workers = workers; fitted = []; kept = None }) }
    {
        Ok(Auditor {
            book: Book::make(alloc, schedule, workers)?,
            stopped: none_stopped(alloc, workers as usize)?,
            begun: none_begun(alloc, workers as usize)?,
            kept: None,
        })
    }

    /// The violation that is kept, if any.
    pub fn kept(&self) -> Option<Violation>
        ensures { result ≡ self.now.kept }
    {
        self.kept
    }

    /// Whether an event fits those that did, and else its violation.
    fn judge(&self, event: Event) -> Option<Violation>
        requires { moment event ≤ MAX_AT }
        ensures { MatchOption result (Fits self.now.schedule self.now.workers self.now.fitted event)
            (λ v. IsViolation self.now.schedule self.now.workers self.now.fitted event v) }
    {
        judge(&self.book, &self.stopped, &self.begun, event)
    }

    /// Appends an event that fits.
    fn append(&mut self, event: Event)
        requires fits { Fits self.old.schedule self.old.workers self.old.fitted event }
        requires at { moment event ≤ MAX_AT }
        ensures { self.new ≡ record self.old { fitted = self.old.fitted ++ event ∷ [] } }
    {
        let number = self.book.events().len() as u32;
        self.book.push(event);
        match event {
            Event::Start {
                op: _,
                worker,
                at: _,
            } => self.begun[worker as usize] = number,
            Event::Finish {
                op: _,
                worker: _,
                at: _,
                front: _,
            } => {}
            Event::Halt { worker } => self.stopped[worker as usize] = true,
        }
    }

    /// Tells it the next event, whose moment, where it has one, is at most `MAX_AT`.
    ///
    /// The first event that doesn't fit those before it is answered with its violation, which is kept:
    /// from then on nothing changes, and each later step is answered with the same. The rules are tried
    /// in the order of their numbers. Takes no memory.
    pub fn step(&mut self, event: &Event) -> Result<(), Violation>
        requires { moment event.now ≤ MAX_AT }
        ensures ok { OnOk result ((self.old.kept ≡ None)
            × Fits self.old.schedule self.old.workers self.old.fitted event.now
            × (self.new ≡ record self.old { fitted = self.old.fitted ++ event.now ∷ [] })) }
        ensures err { IfErr result (λ v. IsRefused self.old event.now v self.new) }
    {
        if let Some(violation) = self.kept {
            return Err(violation);
        }
        match self.judge(*event) {
            None => {
                self.append(*event);
                Ok(())
            }
            Some(violation) => {
                self.kept = Some(violation);
                Err(violation)
            }
        }
    }

    /// The verdict on what it has been told. Takes no memory.
    pub fn end(&self) -> Verdict
        ensures verdict { (h : List Event) → HasHeard self.now h
            → IsVerdict self.now.schedule self.now.workers h result }
        ensures kept { IfSome self.now.kept (λ v. result ≡ Verdict.Violated v) }
        ensures fitted { IfNone self.now.kept (IsVerdict self.now.schedule self.now.workers self.now.fitted result) }
    {
        let fitted = self.book.events();
        match self.kept {
            Some(violation) => Verdict::Violated { violation },
            None => verdict_of(&self.book, fitted),
        }
    }
}

/// The verdict on a history of 1 to 8 workers, of which no moment is above `MAX_AT`. Memory aside
/// there is always one.
pub fn audit_all(
    alloc: Global,
    schedule: &Schedule,
    workers: u32,
    events: &[Event],
) -> Result<Verdict, AllocError>
    requires some { 1 ≤ workers }
    requires few { workers ≤ MAX_WORKERS }
    requires at { All (λ e. moment e ≤ MAX_AT) events.now }
    ensures { IfOk result (λ verdict. IsVerdict schedule.now workers events.now verdict) }
{
    let mut auditor = Auditor::new(alloc, schedule, workers)?;
    for event in events {
        if let Err(_) = auditor.step(event) {
            return Ok(auditor.end());
        }
    }
    Ok(auditor.end())
}
