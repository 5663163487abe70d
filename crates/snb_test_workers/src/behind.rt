//! The call in which one of two workers works, while the other one has an operation in hand.

ghost use Rattle.snb_test_workers.specs.Wholes.{IsWhole};

use crate::alone::{moments_of, told_work};
use crate::closed::{Planned, load_closed};
use crate::holder::{End, Holder};
use crate::pair::work_seat;
use snb_base::Clock;
use snb_test_board::board_of_two;
use snb_test_script::{Files, Flaw, Given, first_word, number_of};
use std::alloc::Global;
use std::sync::atomic::{AtomicU64, Ordering};
use std::sync::{Mutex, Wait};

// The end that the word names.
fn end_of(word: &str) -> Result<End, Flaw> {
    match word {
        "finishes" => Ok(End::Finish),
        "halts" => Ok(End::Halt),
        _ => Err(Flaw::NoName),
    }
}

// A clock at which the other worker ends what it has in hand, once it has been rested so often.
struct Behind<'a> {
    given: Given<'a>,
    rested: AtomicU64,
    most: u64,
    end: End,
    holder: Mutex<Option<Holder<'a>>>,
}

impl Drop for Behind<'_> {
    fn drop(self) {
        let Behind {
            given: _,
            rested: _,
            most: _,
            end: _,
            holder: _,
        } = self;
    }
}

impl Behind<'_> {
    // What was noted.
    fn notes(self) -> String {
        let Behind {
            given,
            rested: _,
            most: _,
            end: _,
            holder: _,
        } = self;
        given.notes()
    }
}

impl Clock for Behind<'_> {
    ghost use Rattle.snb_base.specs.Moments.{any_moment};

    ghost moments = { λ _. any_moment };

    fn now(&self) -> u64 {
        self.given.now()
    }

    fn after(&self, reply: &[u8]) -> u64 {
        self.given.after(reply)
    }

    fn rest<R: Wait>(&self, rt: &R, until: u64) {
        self.given.rest(rt, until);
        let before = self.rested.fetch_add(1, Ordering::SeqCst);
        if before.saturating_add(1) == self.most {
            if let Some(holder) = self.holder.lock(rt).take() {
                holder.end(rt, self.end, until);
            }
        }
    }
}

// Worker 1 works, at a clock that shows these moments, while worker 0 has the first operation in hand, which
// must be an insert; it ends at the rest of worker 1 of this number, counted from 1.
fn told_behind<R: Wait>(
    rt: &R,
    alloc: Global,
    whole: &Planned,
    end: End,
    most: u64,
    moments: &[u64],
) -> Result<String, Flaw>
    requires { IsWhole whole.now.graph whole.now.plan }
{
    let (board, zero, mut one) = board_of_two(alloc, whole.plan.schedule())?;
    let holder = Holder::new(rt, &board, whole.plan.schedule(), zero);
    if holder.is_none() {
        return Err(Flaw::OtherValue);
    }
    let behind = Behind {
        given: Given::new(alloc, moments),
        rested: AtomicU64::new(0),
        most,
        end,
        holder: Mutex::new(holder),
    };
    let replies = work_seat(rt, alloc, &board, &mut one, whole, &behind, &behind.given)?;
    let mut events = Vec::new(alloc);
    board.catch_up(rt, &mut one, 0, &mut events)?;
    let notes = behind.notes();
    told_work(alloc, notes.as_str(), &events, replies)
}

/// `alone_behind END REST MOMENTS RATIO` or `alone_behind END REST MOMENTS RATIO FREQUENCIES`
pub fn alone_behind<R: Wait>(
    rt: &R,
    alloc: Global,
    files: &Files,
    rest: &str,
) -> Result<String, Flaw> {
    let (end, rest) = first_word(rest);
    let (most, rest) = first_word(rest);
    let (moments, terms) = first_word(rest);
    let end = end_of(end)?;
    let most = number_of(most)?;
    let moments = moments_of(alloc, moments)?;
    let whole = load_closed(alloc, files, terms)?;
    told_behind(rt, alloc, &whole, end, most, &moments)
}
