//! What happens in a run: a history is a list of events.

use snb_base::TryCopy;
use std::alloc::AllocError;

/// What a worker did, and when.
///
/// Operations and workers are numbered from 0. A moment `at` is in milliseconds since the start of the
/// run's clock, and is at most `MAX_AT`.
#[derive(Clone, Copy)]
pub enum Event {
    /// The worker takes the operation in hand.
    Start {
        op: u32,
        worker: u32,
        at: u64,
    },
    /// The worker is done with the operation. `front` is a number of events: a read saw what the
    /// first `front` events finished, and it is 0 of an insert.
    Finish {
        op: u32,
        worker: u32,
        at: u64,
        front: u32,
    },
    /// The worker stops and takes no more operations in hand.
    Halt {
        worker: u32,
    },
}

impl TryCopy for Event {
    fn try_copy(&self) -> Result<Event, AllocError> {
        Ok(*self)
    }
}
