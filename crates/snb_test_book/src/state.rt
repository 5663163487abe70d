//! What the calls of a case have made so far.

use snb_book::Book;
use snb_completion::Times;
use snb_history::Schedule;

/// The schedule of the last plan, and the book and the times over it, once they are made.
pub struct State {
    pub schedule: Option<Schedule>,
    pub book: Option<Book>,
    pub times: Option<Times>,
}

impl Drop for State {
    fn drop(self) {
        let State {
            schedule: _,
            book: _,
            times: _,
        } = self;
    }
}

impl State {
    /// Before the first call of a case.
    pub fn new() -> State {
        State {
            schedule: None,
            book: None,
            times: None,
        }
    }
}
