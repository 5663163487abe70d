//! A gate at which two workers meet.

use snb_base::{Gate, Phase};
use std::sync::Wait;
use std::sync::atomic::{AtomicU64, Ordering};
use std::thread;

// How often a worker looks for the other one at most.
const LOOKS: u32 = 10_000_000;

// After so many looks it lets other threads go on.
const LOOKS_AT_ONCE: u32 = 1_000;

/// A gate of two workers. It holds each of them, with an operation in hand, until the other one has had an
/// operation in hand too, and gives up after many looks.
pub struct Meeting {
    // Each is 1 once this is so, and else 0.
    zero_has_come: AtomicU64,
    one_has_come: AtomicU64,
    is_missed: AtomicU64,
}

impl Drop for Meeting {
    fn drop(self) {
        let Meeting {
            zero_has_come: _,
            one_has_come: _,
            is_missed: _,
        } = self;
    }
}

impl Meeting {
    /// A gate to which nobody has come.
    pub fn new() -> Meeting {
        Meeting {
            zero_has_come: AtomicU64::new(0),
            one_has_come: AtomicU64::new(0),
            is_missed: AtomicU64::new(0),
        }
    }

    /// Whether a worker was held in vain.
    pub fn is_missed(&self) -> bool {
        self.is_missed.load(Ordering::SeqCst) != 0
    }

    // Waits until the other worker has come.
    fn wait_for(&self, other_has_come: &AtomicU64) {
        for look in 0..LOOKS {
            if other_has_come.load(Ordering::SeqCst) != 0 {
                return;
            }
            if look % LOOKS_AT_ONCE == 0 {
                thread::yield_now();
            }
        }
        self.is_missed.store(1, Ordering::SeqCst);
    }
}

impl Gate for Meeting {
    fn pass<R: Wait>(&self, _rt: &R, worker: u32, _op: u32, phase: Phase) {
        match (phase, worker) {
            (Phase::Done, _) => {}
            (Phase::Held, 0) => {
                self.zero_has_come.store(1, Ordering::SeqCst);
                self.wait_for(&self.one_has_come);
            }
            (Phase::Held, _) => {
                self.one_has_come.store(1, Ordering::SeqCst);
                self.wait_for(&self.zero_has_come);
            }
        }
    }
}
