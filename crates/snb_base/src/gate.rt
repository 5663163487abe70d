//! Where a worker may be held while it has an operation in hand.

use std::sync::Wait;

/// Where a worker stands.
#[derive(Clone, Copy)]
pub enum Phase {
    /// The operation is started and not finished.
    Held,
    /// The operation is finished.
    Done,
}

/// What a worker calls between the start and the finish of an operation, and after the finish.
///
/// Nothing is claimed of it: it may keep the worker for a while, so that a test can order workers.
pub trait Gate {
    /// Lets the worker pass at this phase of the operation.
    fn pass<R: Wait>(&self, rt: &R, worker: u32, op: u32, phase: Phase);
}

/// A gate that does nothing.
#[derive(Clone, Copy)]
pub struct OpenGate;

impl Gate for OpenGate {
    fn pass<R: Wait>(&self, _rt: &R, _worker: u32, _op: u32, _phase: Phase) {}
}
