//! The clock and the gate of a case, and what is noted of them.

use snb_base::{Clock, Gate, Phase};
use std::alloc::{AllocError, Global};
use std::sync::{Mutex, Wait};

// How many moments were shown, and what was noted.
struct Notes {
    shown: usize,
    text: String,
}

impl Drop for Notes {
    fn drop(self) {
        let Notes { shown: _, text: _ } = self;
    }
}

impl Notes {
    // What was noted.
    fn into_text(self) -> String {
        let Notes { shown: _, text } = self;
        text
    }
}

/// A clock that shows the given moments one after another, the last of them from then on, and a gate that
/// lets everybody pass. What is done to them is noted: `now MOMENT`, `after MOMENT REPLY`, `rest UNTIL`, `held
/// WORKER OP` and `done WORKER OP`, a line each. A note for which there is no memory is missing, and so is that of a
/// thread while another one notes; to that thread the clock shows the last moment.
pub struct Given<'a> {
    moments: &'a [u64],
    notes: Mutex<Notes>,
}

impl Drop for Given<'_> {
    fn drop(self) {
        let Given {
            moments: _,
            notes: _,
        } = self;
    }
}

impl<'a> Given<'a> {
    /// Nothing is noted yet. Where no moment is given, the clock shows 0.
    pub fn new(alloc: Global, moments: &'a [u64]) -> Given<'a> {
        Given {
            moments,
            notes: Mutex::new(Notes {
                shown: 0,
                text: String::new(alloc),
            }),
        }
    }

    // The next moment, which is noted after this word, with the reply that was handed over; the last one while
    // another thread notes.
    fn next_moment(&self, word: &str, reply: &str) -> u64 {
        let last = self.moments.last().copied().unwrap_or(0);
        let Some(mut notes) = self.notes.try_lock() else {
            return last;
        };
        let moment = self.moments.get(notes.shown).copied().unwrap_or(last);
        notes.shown = notes.shown.saturating_add(1);
        let gap = if reply.is_empty() { "" } else { " " };
        let _ = writeln!(notes.text, "{word} {moment}{gap}{reply}");
        moment
    }

    /// What was noted, each line with its end.
    pub fn notes(self) -> String {
        let Given { moments: _, notes } = self;
        notes.into_inner().into_text()
    }

    /// What was noted, and how often the shelf was read, as its last line.
    pub fn story(self, reads: u64) -> Result<String, AllocError> {
        let mut story = self.notes();
        writeln!(story, "reads {reads}")?;
        Ok(story)
    }
}

impl Clock for Given<'_> {
    ghost use Rattle.snb_base.specs.Moments.{any_moment};

    ghost moments = { λ _. any_moment };

    fn now(&self) -> u64 {
        self.next_moment("now", "")
    }

    fn after(&self, reply: &[u8]) -> u64 {
        self.next_moment("after", str::from_utf8(reply).unwrap_or("no text"))
    }

    fn rest<R: Wait>(&self, _rt: &R, until: u64) {
        if let Some(mut notes) = self.notes.try_lock() {
            let _ = writeln!(notes.text, "rest {until}");
        }
    }
}

impl Gate for Given<'_> {
    fn pass<R: Wait>(&self, _rt: &R, worker: u32, op: u32, phase: Phase) {
        let word = match phase {
            Phase::Held => "held",
            Phase::Done => "done",
        };
        if let Some(mut notes) = self.notes.try_lock() {
            let _ = writeln!(notes.text, "{word} {worker} {op}");
        }
    }
}
