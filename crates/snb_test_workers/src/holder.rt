//! One of two workers, who has an operation in hand while the other one works.

ghost use Rattle.std.specs.Prelude.{◌≡◌};

use snb_board::{Board, Seat};
use snb_book::{Claim, Ticket};
use snb_history::Schedule;
use snb_test_board::is_insert;
use std::marker::Model;
use std::sync::Wait;

/// What is done at last with an operation in hand.
#[derive(Clone, Copy)]
pub(crate) enum End {
    /// It is finished.
    Finish,
    /// Its worker halts.
    Halt,
}

/// A worker at the board that has an insert in hand.
#[derive(Drop)]
pub(crate) struct Holder<'a> {
    board: &'a Board,
    seat: Seat,
    ticket: Ticket,
}

impl<'a> Model for Holder<'a> {
    ghost use Rattle.std.specs.Prelude.{◌≡◌, false};
    ghost use Rattle.snb_history.specs.History.{halted};
    ghost use Rattle.snb_history.specs.Rules.{IsFront};
    ghost use Rattle.snb_book.specs.Kept.{IsInHand};
    ghost use Rattle.snb_board.specs.Boards.{Sitting, mine};

    ghost Value = { Sitting };

    ghost view = { λ s. s.seat };

    ghost invariant = { λ s. (s.seat.site ≡ s.board.now)
        × (s.ticket.worker ≡ s.seat.worker)
        × IsInHand s.seat.seen s.ticket
        × (halted (mine s.seat) s.ticket.worker ≡ false)
        × IsFront s.board.now.schedule s.seat.seen s.ticket.op 0 };
}

impl<'a> Holder<'a> {
    /// The seat's worker claims at 0; None where it is given no insert.
    pub(crate) fn new<R: Wait>(
        rt: &R,
        board: &'a Board,
        schedule: &Schedule,
        mut seat: Seat,
    ) -> Option<Holder<'a>>
        requires { (seat.site ≡ board.now) × (board.now.schedule ≡ schedule.now) }
    {
        let Claim::Go { ticket } = board.claim(rt, &mut seat, 0) else {
            return None;
        };
        if !is_insert(schedule, ticket.op) {
            return None;
        }
        Some(Holder {
            board,
            seat,
            ticket,
        })
    }

    /// Finishes the insert at the moment, or halts.
    pub(crate) fn end<R: Wait>(self, rt: &R, end: End, now: u64) {
        let Holder {
            board,
            mut seat,
            ticket,
        } = self;
        match end {
            End::Finish => board.finish(rt, &mut seat, ticket, now, 0),
            End::Halt => board.halt(rt, &mut seat),
        }
    }
}
