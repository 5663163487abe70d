//! A board, which threads share.

ghost use Rattle.std.specs.Prelude.{◌≡◌, ◌<◌, ◌≤◌, ◌^◌, ◌≤ℤ◌, [], ◌∷◌, ◌++◌, length, drop, map, Some, IfOk, OnErr, All, false};
ghost use Rattle.snb_schema.specs.declared.limits.TheConstants.{MAX_WORKERS};
ghost use Rattle.snb_history.specs.Completion.{completion};
ghost use Rattle.snb_history.specs.History.{halted};
ghost use Rattle.snb_history.specs.Rules.{IsFront, IsLegal};
ghost use Rattle.snb_book.specs.Claims.{IfGo};
ghost use Rattle.snb_book.specs.Kept.{IsInHand};
ghost use Rattle.snb_board.specs.Boards.{site, mine, AreAll, AreMadeBy, AreSeats, HasClaimed, HasFinished, HasHalted, HasLearned, HasLooked, IsEmptyYet, IsPartOf};
ghost use Rattle.snb_board.specs.Steps.{IsSized, IsSeated, IsResting, is_go, part_of, with_parts};
ghost use Rattle.snb_board.specs.Parts.{first_view, kept};

use crate::seat::Seat;
use crate::steps::{begin, gather, give, load, mint, reach_of, take};
use crate::view::{Place, Rule, Slot, Top, View};
use atomic_table::Table;
use snb_book::{Book, Claim, Ticket};
use snb_history::{Event, Schedule, hand_is_own, start_stays};
use std::alloc::{AllocError, Global};
use std::marker::Model;
use std::snapshot::Snapshot;
use std::sync::Wait;

/// One book that threads share, each with a seat of its own.
///
/// A board has one history, which is legal at all times. Each call is made by a seat of this board, and
/// all but `completion` wait until no other call has the book. What it finds is a history that begins with
/// all that the seat had seen; it answers, and adds its event, as the book does at that history, and the
/// seat has then seen that history with the event. No other seat adds events of its worker. A board is seen
/// as which board it is, its schedule, and its count of workers.
pub struct Board {
    table: Table<Slot, View, Snapshot<Book>, Rule, Global>,
    workers: u32,
}

impl Drop for Board {
    fn drop(self) {
        let Board {
            table: _,
            workers: _,
        } = self;
    }
}

impl Model for Board {
    ghost use Rattle.snb_board.specs.Boards.{Site};

    ghost Value = { Site };

    ghost use Rattle.std.specs.Prelude.{◌≡◌, ◌≤◌};
    ghost use Rattle.snb_schema.specs.declared.limits.TheConstants.{MAX_WORKERS};
    ghost use Rattle.snb_board.specs.Boards.{site};
    ghost use Rattle.snb_board.specs.Steps.{IsSized};

    ghost view = { λ b.
        site b.table.shared.table_id b.table.shared.key.value.schedule b.table.shared.key.value.workers };

    ghost invariant = { λ b. IsSized b.table.shared.table_id × (b.workers ≡ b.table.shared.key.value.workers)
        × (1 ≤ b.workers) × (b.workers ≤ MAX_WORKERS) };
}

// Whether a claim added an event.
fn is_grown(claim: &Claim) -> bool
    ensures { result ≡ is_go claim.now }
{
    match claim {
        Claim::Go { .. } => true,
        _ => false,
    }
}

// A seat for each worker, in order.
fn seat_all(
    top: &Top,
    mut place: Place,
    workers: u32,
    mut seats: Vec<Seat>,
) -> Result<Vec<Seat>, AllocError>
    requires table { IsSized top.now.table_id × (place.table_id ≡ top.now.table_id) }
    requires first { place.me ≡ (first_view (kept place.me.0.schedule workers []), []) }
    requires room { (0 < workers) × (seats.items ≡ []) }
    ensures { IfOk result (λ v. AreSeats (site top.now.table_id place.me.0.schedule workers) v.items) }
{
    for worker in 1..workers {
        let next = mint(top, &mut place);
        seats.push(Seat {
            worker,
            place: next,
        })?;
    }
    seats.insert(0, Seat { worker: 0, place })?;
    Ok(seats)
}

// Takes in what the other seats have seen.
fn gather_all(top: &Top, place: &mut Place, seats: Vec<Seat>)
    requires table { IsSized top.now.table_id × (place.old.table_id ≡ top.now.table_id) }
    requires rest { IsResting place.old }
    requires seats { All (λ s. s.site.table_id ≡ top.now.table_id) seats.items }
    ensures table { IsSeated place.old place.new }
    ensures view { place.new.me ≡ (with_parts place.old.me.0 place.new.me.0.made (map part_of seats.items), []) }
{
    for seat in seats {
        let Seat {
            worker: _,
            place: other,
        } = seat;
        gather(top, place, other);
    }
}

impl Board {
    /// A board of 1 to 8 workers and a schedule, in which nothing has happened, and one seat for each
    /// worker, in order.
    ///
    /// It has room for all that can happen: no call but `catch_up` takes memory.
    pub fn make(
        alloc: Global,
        schedule: &Schedule,
        workers: u32,
    ) -> Result<(Board, Vec<Seat>), AllocError>
        requires some { 1 ≤ workers }
        requires few { workers ≤ MAX_WORKERS }
        ensures board { IfOk result (λ r. (r.0.schedule ≡ schedule.now) × (r.0.workers ≡ workers)) }
        ensures seats { IfOk result (λ r. AreSeats r.0 r.1.items) }
        ensures empty { IfOk result (λ r. IsEmptyYet r.0 r.1.items) }
    {
        let book = Book::make(alloc, schedule, workers)?;
        let reach = reach_of(&book);
        let about = Snapshot::of(&book);
        let mut slots = Vec::new(alloc);
        slots.push(Ok(book))?;
        let Ok((table, mut place)) = Table::new(alloc, &[0, 0, reach], slots, &about) else {
            return Err(AllocError);
        };
        begin(&table.shared, &mut place);
        let seats = seat_all(&table.shared, place, workers, Vec::new(alloc))?;
        Ok((Board { table, workers }, seats))
    }

    /// The count of workers, 1 to 8.
    pub fn workers(&self) -> u32
        ensures value { result ≡ self.now.workers }
        ensures some { 1 ≤ result }
        ensures few { result ≤ MAX_WORKERS }
    {
        self.workers
    }

    /// Claims an operation for the seat's worker, as `Book::claim` does at the history that is found,
    /// where the clock shows `now`. The ticket of a `Go` is then in the worker's hand. The seat is one of
    /// this board's.
    pub fn claim<R: Wait>(&self, rt: &R, seat: &mut Seat, now: u64) -> Claim
        requires { seat.old.site ≡ self.now }
        ensures call { HasClaimed seat.old seat.new now result }
        ensures held { IfGo result (λ ticket. (ticket.worker ≡ seat.old.worker) × IsInHand seat.new.seen ticket) }
        ensures acts { IfGo result (λ ticket. halted (mine seat.new) ticket.worker ≡ false) }
    {
        hand_is_own();
        let mut book = take(rt, &self.table.shared, &mut seat.place);
        let claim = book.claim(seat.worker, now);
        give(&self.table.shared, &mut seat.place, book, is_grown(&claim));
        claim
    }

    /// Finishes the operation of a ticket that the seat's worker has in hand, as `Book::finish` does at
    /// the history that is found, where the clock shows `now`. The seat is one of this board's, and its
    /// worker hasn't halted.
    ///
    /// `front` is 0 of an insert, and of a read a number of events that the seat has seen: greater than
    /// the number of its Start. That another worker has halted doesn't hinder it.
    pub fn finish<R: Wait>(&self, rt: &R, seat: &mut Seat, ticket: Ticket, now: u64, front: u32)
        requires board { seat.old.site ≡ self.now }
        requires held { (ticket.worker ≡ seat.old.worker) × IsInHand seat.old.seen ticket }
        requires acts { halted (mine seat.old) ticket.worker ≡ false }
        requires front { IsFront self.now.schedule seat.old.seen ticket.op front }
        ensures { HasFinished seat.old seat.new ticket now front }
    {
        hand_is_own();
        start_stays();
        let mut book = take(rt, &self.table.shared, &mut seat.place);
        book.finish(ticket, now, front);
        give(&self.table.shared, &mut seat.place, book, true);
    }

    /// Appends the Halt of the seat's worker, which hasn't halted before: from then on every claim, of
    /// whichever worker, is `Halted`. The seat is one of this board's.
    pub fn halt<R: Wait>(&self, rt: &R, seat: &mut Seat)
        requires board { seat.old.site ≡ self.now }
        requires acts { halted (mine seat.old) seat.old.worker ≡ false }
        ensures { HasHalted seat.old seat.new }
    {
        hand_is_own();
        let mut book = take(rt, &self.table.shared, &mut seat.place);
        book.halt(seat.worker);
        give(&self.table.shared, &mut seat.place, book, true);
    }

    /// Appends the events of the found history from number `from` on, and answers how many events it
    /// has. On want of memory nothing is appended, and the seat has seen the found history all the same.
    /// The seat is one of this board's, and has seen at least `from` events.
    pub fn catch_up<R: Wait>(
        &self,
        rt: &R,
        seat: &mut Seat,
        from: u32,
        into: &mut Vec<Event>,
    ) -> Result<u32, AllocError>
        requires board { seat.old.site ≡ self.now }
        requires from { from ≤ length seat.old.seen }
        ensures call { HasLooked seat.old seat.new }
        ensures ok { IfOk result
            (λ n. (n ≡ length seat.new.seen) × (into.new.items ≡ into.old.items ++ drop from seat.new.seen)) }
        ensures err { OnErr result (into.new.items ≡ into.old.items) }
    {
        let book = take(rt, &self.table.shared, &mut seat.place);
        let events = book.events();
        let len = events.len() as u32;
        let added = into.extend_from_slice(&events[from as usize..]);
        give(&self.table.shared, &mut seat.place, book, false);
        added?;
        Ok(len)
    }

    /// The completion time that was published last, in milliseconds since 1970-01-01 UTC:
    /// 253402300799999 where no dependency is awaited, -1 where one of time 0 is. Takes no memory, and
    /// doesn't wait.
    ///
    /// It may be newer than what the seat has seen, and is never older. It passes no dependency that the
    /// seat's next turn still finds unfinished: each of those has a later time. It never falls for one
    /// seat. What the seat has seen stays as it was. The seat is one of this board's.
    pub fn completion(&self, seat: &mut Seat) -> i64
        requires { seat.old.site ≡ self.now }
        ensures { HasLearned seat.old seat.new result }
    {
        load(&self.table.shared, &mut seat.place) as i64 - 1
    }

    /// The book, once no thread shares the board any more. Takes no memory, and doesn't wait.
    ///
    /// The seats are all of this board's. What each has seen begins the book's history, and each worker's
    /// events in it are those that its seat knows; so it is made of the events of these seats' workers
    /// alone, each once.
    pub fn close(self, mut seats: Vec<Seat>) -> Book
        requires all { AreAll self seats.items }
        ensures book { (result.schedule ≡ self.schedule) × (result.workers ≡ self.workers) }
        ensures legal { IsLegal result.schedule result.workers result.history }
        ensures seats { All (IsPartOf self.schedule result.history) seats.items }
        ensures made { AreMadeBy seats.items result.history }
    {
        let Board { table, workers: _ } = self;
        let Some(last) = seats.pop() else {
            unreachable!()
        };
        let Seat {
            worker: _,
            mut place,
        } = last;
        gather_all(&table.shared, &mut place, seats);
        let mut closed = table.close_with(place);
        let Ok(book) = closed.take(0) else {
            unreachable!()
        };
        closed.free();
        book
    }
}
