//! What seats know, for the proofs alone, and the table that they step on.

use atomic_table::{Seat, Shared, TableRule};
use snb_book::Book;
use snb_history::{Event, Schedule};
use std::collections::LinkedList;
use std::snapshot::Snapshot;

/// What one seat knows: its worker's number, a beginning of the history, and one more than the greatest
/// completion time that it was told. No value of it is made.
pub struct Part {
    pub worker: u32,
    pub seen: LinkedList<Event>,
    pub told: u64,
}

/// Where a view is in a turn: it has none, it has the turn and the book, it has counted an event, or it
/// has published its completion time.
pub enum Phase {
    Idle,
    Holding,
    Counted,
    Raised,
}

/// What the slot has: the book; or nothing, since a call has the book, and while the call counts the event
/// that it added, that event.
pub type Slot = Result<Book, Option<Event>>;

/// A view: the own part first, then those of the seats that were joined. No value of it is made.
pub struct View {
    pub phase: Phase,
    /// The schedule and the count of workers of the book. A view that is spent has none.
    pub schedule: Schedule,
    pub workers: u32,
    /// The count of seats made. The view that has worker 0's part has it, and others have 0.
    pub made: u32,
    pub parts: LinkedList<Part>,
}

/// The rule of the table.
pub struct Rule;

impl TableRule<Slot, View, Snapshot<Book>> for Rule {
    ghost use Rattle.snb_board.specs.Views.{IsRuled};
    ghost use Rattle.snb_board.specs.Parts.{first_view};

    ghost holds = { λ key. IsRuled key.value };

    ghost first = { λ key. first_view key.value };
}

/// The words and the slot, which threads share.
pub type Top = Shared<Slot, View, Snapshot<Book>, Rule>;

/// What a seat steps on them with.
pub type Place = Seat<Slot, View>;
