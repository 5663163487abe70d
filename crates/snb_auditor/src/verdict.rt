//! What an auditor answers.

/// An event that doesn't fit the events before it: the first rule that it breaks, and the rule's two
/// values.
#[derive(Clone, Copy)]
pub struct Violation {
    /// The number of the event, from 0.
    pub event: u32,
    /// The number of the rule, 1 to 9.
    pub rule: u32,
    /// What the rule needs.
    pub needs: i64,
    /// What it found in its place.
    pub found: i64,
}

/// The verdict on a history: the first of these that applies.
#[derive(Clone, Copy)]
pub enum Verdict {
    /// An event doesn't fit those before it, and this is of the first such event.
    Violated { violation: Violation },
    /// Somebody has halted, and this worker was the first.
    Halted { worker: u32 },
    /// Not every operation is finished, and this is the least number of one that isn't.
    Incomplete { op: u32 },
    /// Fewer than 95 of 100 operations started at most 1000 milliseconds after they were due: so many
    /// of so many. The on-time rule of the LDBC Social Network Benchmark's specification.
    TooLate { on_time: u64, all: u64 },
    /// Every operation is finished, and at least 95 of 100 started in time.
    Accepted { on_time: u64, all: u64 },
}
