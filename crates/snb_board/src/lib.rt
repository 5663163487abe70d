//! A board: one book that threads share, each by a seat of its own. A call takes its turn on an atomic
//! word, takes the book out of its slot and calls it. It counts the event that was added, if any, publishes
//! the new completion time, puts the book back and passes the turn.
#![tactic(auto)]

mod board;
mod plays;
mod seat;
mod steps;
mod view;

pub use board::Board;
pub use seat::Seat;
