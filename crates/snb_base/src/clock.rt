//! Moments.

ghost use Rattle.std.specs.Prelude.{◌≡◌, true};
ghost use Rattle.snb_base.specs.Moments.{Moments, any_moment, only};

use std::sync::Wait;
use std::sync::atomic::{AtomicU64, Ordering};

/// A clock whose unit is a millisecond, counted from a start of its own.
///
/// Its meaning is which moments it can answer, and which it can answer once the bytes of a reply are there.
/// Code that is generic over the clock learns of the second ones only by handing over these bytes. Nothing is
/// claimed of the order of its answers.
pub trait Clock {
    /// The moments that it can answer.
    ghost moments: { Self → Moments };

    /// The moment, in milliseconds since the clock's start.
    fn now(&self) -> u64
        ensures { (moments self.now).tells result ≡ true };

    /// The moment, in milliseconds since the clock's start, now that the bytes of this reply are there.
    fn after(&self, reply: &[u8]) -> u64
        ensures told { (moments self.now).tells result ≡ true }
        ensures there { (moments self.now).tells_after reply.now result ≡ true };

    /// Rests until the moment `until`, or a while, or not at all.
    fn rest<R: Wait>(&self, rt: &R, until: u64);
}

/// A clock that always shows one moment.
#[derive(Clone, Copy)]
pub struct FarClock {
    at: u64,
}

impl FarClock {
    /// Shows the moment `at`, in milliseconds.
    pub fn new(at: u64) -> FarClock
        ensures { ⟦<FarClock as Clock>⟧.moments result ≡ only at }
    {
        FarClock { at }
    }
}

impl Clock for FarClock {
    ghost moments = { λ c. only c.at };

    fn now(&self) -> u64 {
        self.at
    }

    fn after(&self, _reply: &[u8]) -> u64 {
        self.at
    }

    fn rest<R: Wait>(&self, _rt: &R, _until: u64) {}
}

/// A clock that counts how often it is asked: it answers 0, 1, 2 and so on, and 0 again after the greatest
/// number. A rest moves it up to the moment that is waited for, where it isn't there yet. It can answer any
/// moment. Threads may share it: each of its answers is given once, up to the greatest number.
pub struct StepClock {
    next: AtomicU64,
}

impl Drop for StepClock {
    fn drop(self) {
        let StepClock { next: _ } = self;
    }
}

impl StepClock {
    /// A clock whose first answer is 0.
    pub fn new() -> StepClock
        ensures { ⟦<StepClock as Clock>⟧.moments result ≡ any_moment }
    {
        StepClock {
            next: AtomicU64::new(0),
        }
    }
}

impl Clock for StepClock {
    ghost moments = { λ _. any_moment };

    fn now(&self) -> u64 {
        self.next.fetch_add(1, Ordering::SeqCst)
    }

    fn after(&self, _reply: &[u8]) -> u64 {
        self.now()
    }

    fn rest<R: Wait>(&self, _rt: &R, until: u64) {
        self.next.fetch_max(until, Ordering::SeqCst);
    }
}
