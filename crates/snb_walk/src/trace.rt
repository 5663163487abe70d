//! What a walk leaves.

use crate::target::{Stop, Target};
use snb_base::{OwnedList, Text};
use snb_read_model::{Answer, Reply};

/// The steps of a walk in order: to which target each one went, and the reply to its reads.
pub type Steps = OwnedList<(Target, Reply<Text>)>;

/// A walk: the answer that it began with, its steps, and why it stopped.
pub struct Trace {
    /// The answer to the query.
    pub start: Answer<Text>,
    /// The steps in order.
    pub steps: Steps,
    /// Why there is no further step.
    pub stop: Stop,
}

impl Drop for Trace {
    fn drop(self) {
        let Trace {
            start: _,
            steps: _,
            stop: _,
        } = self;
    }
}
