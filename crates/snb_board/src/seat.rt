//! A seat at a board.

ghost use Rattle.std.specs.Prelude.{◌≡◌, ◌<◌};

use crate::view::Place;
use std::marker::Model;

/// What one worker calls a board with. Who has the seat of a worker acts for that worker; there is one
/// for each.
///
/// It is seen as its board, its worker's number, the beginning of the history that it has seen, and the
/// greatest completion time that it was told, -1 at first.
#[derive(Drop)]
pub struct Seat {
    pub(crate) worker: u32,
    pub(crate) place: Place,
}

impl Model for Seat {
    ghost use Rattle.snb_board.specs.Boards.{Sitting};

    ghost Value = { Sitting };

    ghost use Rattle.std.specs.Prelude.{◌≡◌, ◌<◌};
    ghost use Rattle.snb_board.specs.Parts.{number_of};
    ghost use Rattle.snb_board.specs.Steps.{IsResting, sitting_of};

    ghost view = { λ s. sitting_of s.place };

    ghost invariant = { λ s. IsResting s.place × (s.worker ≡ number_of s.place.me.0.parts)
        × (s.worker < s.place.me.0.workers) };
}

impl Seat {
    /// The number of its worker, from 0, which is below its board's count of workers.
    pub fn worker(&self) -> u32
        ensures value { result ≡ self.now.worker }
        ensures within { result < self.now.site.workers }
    {
        self.worker
    }
}
